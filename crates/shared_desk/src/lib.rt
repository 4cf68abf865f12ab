//! The desk of one session over a shared hub, and what its daemon is asked to end for.
//!
//! Sessions are served by the same loop over a hub held alone and over this one, which many share.
#![tactic(auto)]

mod desk;
mod ending;
mod past;
mod reading;
mod serving;

pub use desk::{Daemon, SharedDesk};
pub use ending::{End, Ending};
