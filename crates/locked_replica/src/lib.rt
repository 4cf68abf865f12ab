//! A replica and its store as one: what its calls do together is a run of the replica machine, and
//! a crash at any moment leaves a beginning of its list.
//!
//! It has no lock: it is for whoever holds both parts alone, as `edit` does, and here the headline
//! is proved. The lock stands in `shared_hub`.
#![tactic(auto)]

mod commit;
mod hub;
mod hub_reply;
mod hub_step;
mod laws;
mod opening;
mod reading;
mod refusal;
mod reopening;
mod replica_calls;
mod running;

pub use hub::Hub;
pub use hub_reply::HubReply;
pub use hub_step::HubStep;
pub use laws::{a_crash_keeps_what_was_promised, what_recovers_is_what_a_crash_leaves};
pub use refusal::HubRefusal;
pub use running::run;
