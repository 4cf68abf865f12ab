//! The operations that the stream of a file spells, as a list in memory, and the stream of a list.
//!
//! A stream has records of single operations and of runs, and a list is held as runs: the one
//! becomes the other here, when a file is opened.
#![tactic(auto)]

mod front;
mod packing;
mod passing;
mod read_error;
mod reading;
mod stream_reader;

pub use packing::packed;
pub use read_error::ReadError;
pub use reading::read_stream;
pub use stream_reader::StreamReader;
