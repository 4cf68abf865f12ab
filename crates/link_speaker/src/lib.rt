//! Saying what is due over a link: a HAVE, then operations, over any peer and any line.
//!
//! It is apart from threads and sockets, so what is said over a link is proved over any peer and
//! line.
#![tactic(auto)]

mod line;
mod link_line;
mod peer;
mod speak_error;
mod speak_ops;
mod speaker;
mod writing;

pub use line::Line;
pub use peer::Peer;
pub use speak_error::SpeakError;
pub use speaker::Speaker;
pub use writing::write_out;
