//! One peer's list of operations, its clock, how much of it is settled, and the steps that made it.
//!
//! All that one peer knows stands here, without a disk and without threads, as one value with one
//! invariant.
#![tactic(auto)]

mod changed;
mod copying;
mod counting;
mod decided;
mod deciding;
mod doc_counts;
mod docs;
mod drafts;
mod edited;
mod editing;
mod following;
mod index;
mod knowledge;
mod known;
mod lasting;
mod lengths;
mod log;
mod maker;
mod making;
mod merged;
mod merging;
mod named;
mod opening;
mod past;
mod prepared;
mod preparing;
mod refusal;
mod repeats;
mod replica;
mod several;
mod step;
mod steps;
mod telling;
mod ticket;
mod turn;
mod versions;

pub use decided::Decided;
pub use merged::Merged;
pub use past::the_past_goes_by_the_number_of_operations;
pub use prepared::Prepared;
pub use refusal::Refusal;
pub use replica::Replica;
pub use ticket::Ticket;
