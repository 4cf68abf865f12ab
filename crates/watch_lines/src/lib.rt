//! The lines of a session that is told of the changes of a document, or of several.
//!
//! It has no thread and no socket: the numbers come from a source, which may wait for them, and the
//! lines go to a writer.
#![tactic(auto)]

mod laws;
mod line_room;
mod several_source;
mod source;
mod watching;
mod watching_several;

pub use laws::{each_document_is_told_alone, told_numbers_rise};
pub use line_room::LineRoom;
pub use several_source::{NextOf, SeveralSource};
pub use source::{Next, Source};
pub use watching::serve_watch;
pub use watching_several::serve_several;
