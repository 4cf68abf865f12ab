//! The lines of a session over a WebSocket (RFC 6455): its text messages are what the session
//! reads, and each line that it writes is one text message.
#![tactic(auto)]

mod answer_messages;
mod connection;
mod ending;
mod held_lines;
mod laws;
mod message_lines;
mod outlet;

pub use answer_messages::AnswerMessages;
pub use connection::LONGEST;
pub use ending::Ending;
pub use laws::{calls_add_up, writes_add_up};
pub use message_lines::MessageLines;
pub use outlet::Outlet;
