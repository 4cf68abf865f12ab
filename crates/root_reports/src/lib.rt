//! What the two root slots of a file say to whoever keeps it.
//!
//! It is apart from the opening of a file, which needs the live slot alone.
#![tactic(auto)]

mod looking;
mod slot_report;
mod stale;

pub use looking::look;
pub use slot_report::SlotReport;
pub use stale::Stale;
