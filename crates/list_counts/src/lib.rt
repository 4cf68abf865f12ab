//! What is counted of a list of operations: for a peer, for each document and its versions, and of
//! what there is a limit to.
//!
//! A peer's counts compare two clocks and no lists, so asking who is linked costs nothing that a
//! list has.
#![tactic(auto)]

mod document_counts;
mod peer_counts;
mod room;
mod sums;
mod version;
mod writers;

pub use document_counts::DocumentCounts;
pub use peer_counts::PeerCounts;
pub use room::{FileRoom, Room};
pub use version::Version;
pub use writers::Writers;
