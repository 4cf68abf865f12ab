//! What a session's first bytes say: that no session begins so, or what its first line asks for.
//!
//! It looks before the session does: a web page that posts to the port is let go before any line of
//! it is served.
#![tactic(auto)]

mod first_line;
mod first_look;
mod first_watch;
mod front;
mod waits;
mod watch_front;

pub use first_line::FirstLine;
pub use first_look::FirstLook;
pub use first_watch::{FirstWatch, Watch};
pub use front::Front;
pub use waits::has_to_wait;
