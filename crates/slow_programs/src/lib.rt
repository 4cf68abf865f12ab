//! The definitions of the model as plain programs over a list of operations: slow, but exactly what
//! they say.
//!
//! Tests compare the fast programs with them, and who doubts a definition can run it.
#![tactic(auto)]

mod edit_error;
mod editing;
mod formatting;
mod limits;
mod numbering;
mod order;
mod placing;
mod reading;
mod rising;
mod spanning;

pub use edit_error::EditError;
pub use editing::{is_inside, made};
pub use formatting::{markings, marks_of};
pub use numbering::{clock_of, greatest_counter};
pub use order::{characters, walk};
pub use placing::last_end;
pub use reading::{is_removed, rev, text, visible};
pub use spanning::spans;
