//! The daemon's threads: sessions and peer links over sockets, which share one hub, and its
//! flusher.
//!
//! It has no logic that could stand elsewhere: it lets connections in, gives each a thread, and
//! ends them all.
#![tactic(auto)]

mod accepting;
mod busy;
mod caller;
mod door;
mod doors;
mod entry;
mod hall;
mod host;
mod last_words;
mod laws;
mod lobby;
mod pauses;
mod rejoining;
mod renewing;
mod serving;
mod session_thread;
mod sockets;
mod still;
mod timed;
mod until_closed;
mod watch_several;
mod watch_thread;
mod web_ends;
mod web_sides;
mod web_thread;

pub use host::Host;
pub use laws::what_was_settled_stays_over_turns;
pub use rejoining::Joined;
pub use renewing::serve_on;
pub use serving::{Served, serve_all};
pub use sockets::Sockets;
