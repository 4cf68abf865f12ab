//! One document: what operations make of it, and the operations that an edit of it makes.
//!
//! Characters and marks meet here; a replica has one of these for each document.
#![tactic(auto)]

mod apply;
mod changed;
mod doc;
mod draft;
mod lasting;
mod laws;
mod made;
mod make;
mod make_error;
mod make_mark;
mod numbering;
mod removal;

pub use char_sequence::SequenceError;
pub use doc::Doc;
pub use draft::Draft;
pub use laws::{fitting_names_are_there, followers_fit, other_operations_stay};
pub use made::Made;
pub use make_error::MakeError;
pub use span_flatten::{Since, SpansError};
