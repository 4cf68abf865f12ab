//! The characters of a document in the order of its text, tombstones too.
//!
//! It is apart from marks, since a place in the text is found without them, and most edits are of
//! characters.
#![tactic(auto)]

mod applying;
mod building;
mod cell;
mod cell_list;
mod chunk;
mod chunk_size;
mod chunks;
mod cutting;
mod ended;
mod ends_after;
mod error;
mod finding;
mod gap;
mod groups;
mod hidden;
mod hints;
mod landing;
mod lasting;
mod links;
mod packed_cell;
mod place;
mod reading;
mod removal;
mod search;
mod sequence;
mod shown;
mod track;
mod trail;
mod weave;

pub use cell::Cell;
pub use chunk_size::ChunkSize;
pub use ends_after::EndsAfter;
pub use error::SequenceError;
pub use gap::Gap;
pub use sequence::Sequence;
pub use weave::Weave;
