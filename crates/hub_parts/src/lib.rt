//! The two parts of a hub: the one that stands under a lock, and the flusher, which makes device
//! calls without it. They meet twice a commit.
//!
//! A device call takes as long as many edits: nobody who edits or reads waits for one under the
//! lock.
#![tactic(auto)]

mod asking;
mod edits_and_merges;
mod fitting;
mod flusher;
mod keeping;
mod locked;
mod meeting;
mod met;
mod opening;
mod putting;
mod reading;
mod refusal;
mod telling;
mod waiting;

pub use flusher::Flusher;
pub use locked::Locked;
pub use meeting::BEGIN_TRIES;
pub use met::Met;
pub use opening::{Parts, open};
pub use refusal::LockedRefusal;
