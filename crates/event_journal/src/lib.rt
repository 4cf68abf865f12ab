//! What a daemon tells whoever keeps it: its events, a line each, which nobody waits for.
//!
//! It knows no hub: whoever tells of an event hands values over, and one thread writes, so a reader
//! of the lines that stops reading holds nobody up.
#![tactic(auto)]

mod cause;
mod entrance;
mod event;
mod journal;
mod line_writer;
mod quoted;
mod reason;

pub use cause::{About, Cause};
pub use entrance::Entrance;
pub use event::{Event, LinkPlace};
pub use journal::{Journal, Telling};
pub use quoted::Quoted;
pub use reason::Reason;
