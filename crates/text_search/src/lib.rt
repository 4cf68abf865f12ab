//! Where a text stands in another one.
//!
//! It takes at most two steps for each character, whatever the texts are, and never goes back to
//! what was read.
#![tactic(auto)]

mod borders;
mod finding;
mod next;

pub use finding::{MAX_FOUND, places};
