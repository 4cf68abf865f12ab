//! Bytes from a reader and to a writer, where a call that was interrupted is made again.
//!
//! Sessions and links stand on it, so that neither has a loop of its own around a signal that came
//! in the middle of a read or a write.
#![tactic(auto)]

mod reading;
mod writing;

pub use reading::{endless, read_some};
pub use writing::put;
