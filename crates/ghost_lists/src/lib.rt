//! What only contracts and proofs see: lists of what was written or counted, and values once seen.
//!
//! They take no bytes and no time when the program runs; without them a contract couldn't speak of
//! what was done.
#![tactic(auto)]

mod seen;
mod written;

pub use seen::Seen;
pub use written::Written;
