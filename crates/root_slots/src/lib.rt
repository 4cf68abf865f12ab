//! The two root slots of a page file. Byte 0 of a slot is the gate, and 1 to 7 are zero. Then the
//! body: from 8 on `PTXTPG01`, `PTXTPG02` or `PTXTPG03` (the format of the stream), 16 the
//! version, 24 the replica, 40 the length of the stream, 48 the number of operations, 56 the
//! number of table pages, 60 zero, from 64 on the numbers of the table pages, 4 bytes each, and
//! the rest zero. All numbers are big-endian.
//!
//! A commit becomes true with one byte, the gate: whatever happens before it, the old root is what
//! a file stands for.
#![tactic(auto)]

mod error;
mod fields;
mod file_size;
mod root_body;
mod root_head;
mod roots;
mod slots;
mod writing;

pub use error::RootsError;
pub use fields::tables_for;
pub use root_body::RootBody;
pub use root_head::RootHead;
pub use roots::{LoadedRoots, Roots};
