//! What the two threads of a link do: one hears, the other says what is due.
//!
//! Logic stands below, in `causal_sync` and `link_speaker`; here it is run by two threads over one
//! socket.
#![tactic(auto)]

mod hearing;
mod link_end;
mod link_host;
mod link_log;
mod link_thread;
mod locked_line;
mod over;
mod patience;
mod shared_peer;
mod telling;
mod told;

pub use link_host::LinkHost;
pub use link_log::LinkLog;
pub use link_thread::{Parted, serve_link};
