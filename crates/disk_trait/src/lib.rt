//! A disk that tells what a crash may leave, and its bodies: in memory, failing, and over a file.
//!
//! All promises about power cuts rest on what it says of writes and syncs, so nothing else touches
//! a file.
#![tactic(auto)]

mod calls;
mod error;
mod facts;
mod fault;
mod file;
mod inside;
mod laws;
mod log;
mod medium;
mod memory;
mod opening;
mod size_limit;

pub use calls::Disk;
pub use error::DiskError;
pub use facts::DiskFacts;
pub use fault::FaultDisk;
pub use file::FileDisk;
pub use inside::{read_inside, write_inside};
pub use laws::torn_writes_follow_the_rule;
pub use medium::Fate;
pub use memory::{MOST_WRITTEN, MemDisk};
pub use size_limit::limit_in;
