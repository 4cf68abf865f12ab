//! A hub that threads share: what stands under its lock, the passes of the threads that use it, and
//! what the flusher's thread does.
//!
//! The lock of the hub stands here, with all who wait for it, so whoever reads how threads wait
//! reads this.
#![tactic(auto)]

mod awaited;
mod checkpoint;
mod committer;
mod connected;
mod flushing;
mod guarded;
mod guarded_edits;
mod guarded_meets;
mod guarded_past;
mod guarded_reads;
mod guarded_tells;
mod guarded_waits;
mod guarded_watches;
mod meetings;
mod news;
mod opening;
mod passes;
mod promises;
mod refusal;
mod rooms;
mod shared;
mod shared_past;
mod shared_reads;
mod shared_waits;
mod shared_watches;
mod shown;
mod status;
mod turns;
mod watch_book;
mod watched;
mod watched_of;

pub use checkpoint::{Checkpoint, NoCheckpoint, Point};
pub use committer::Committer;
pub use flushing::flush;
pub use guarded::Guarded;
pub use news::News;
pub use opening::{Named, Opened, PASSES};
pub use passes::Pass;
pub use promises::{
    a_turn_leaves_its_list, what_was_promised_is_settled, what_was_promised_outlives_a_crash,
};
pub use refusal::SharedRefusal;
pub use shared::Shared;
pub use shown::Shown;
pub use status::Status;
pub use watch_book::WatchBook;
pub use watched::Watched;
pub use watched_of::WatchedOf;
