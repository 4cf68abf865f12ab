//! Who may come in by a WebSocket: any web page can have a browser connect to 127.0.0.1.
//!
//! The head of a request is read within bounds, its host and its origin are looked at, and only
//! then is it answered. A page of a site that no one named gets no more than a refusal.
#![tactic(auto)]

mod admitting;
mod came_in;
mod guest;
mod head;
mod letters;
mod origin;
mod origin_text;
mod own_host;
mod refusal;
mod stated;

pub use admitting::{admit, admit_from};
pub use came_in::Guest;
pub use guest::may_come;
pub use origin::{BadOrigin, Origin};
pub use refusal::Refusal;
pub use stated::Stated;
