//! The mark operations of a document, where they end, and which are in force at a place.
//!
//! Marks are found by the characters at which they begin and end, so an edit doesn't pass over all
//! of them.
#![tactic(auto)]

mod anchors;
mod cuts;
mod edge;
mod edge_chunk;
mod edge_chunks;
mod edges;
mod ended;
mod force;
mod gathering;
mod laws;
mod naming;
mod place;
mod putting;
mod spot;

pub use anchors::Anchors;
pub use edge::Edge;
pub use gathering::Gathering;
pub use laws::{
    inserts_and_removes_leave_the_marks, kept_marks_say_their_ends,
    other_documents_leave_the_marks, runs_and_removes_leave_the_marks,
};
pub use place::Place;
