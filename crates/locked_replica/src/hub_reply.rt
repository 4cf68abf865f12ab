//! What a call of a hub answers, as data.
use crate::refusal::HubRefusal;
use group_commit::Phase;
use op_ids::Clock;
use op_model::Op;
use replica_core::{Merged, Ticket};

/// What a call of a hub answers, for each call of a list.
#[derive(Debug, Drop)]
pub enum HubReply {
    Edited(Result<Ticket, HubRefusal>),
    Merged(Result<Merged, HubRefusal>),
    /// The number of operations that the commit has, or none where there is nothing new.
    Begun(Result<Option<u64>, HubRefusal>),
    /// The phase whose device call was made.
    Stepped(Result<Phase, HubRefusal>),
    /// The settled number.
    Settled(Result<u64, HubRefusal>),
    /// Whether the edit's operations are settled.
    Acknowledged(bool),
    Told(Result<Vec<Op>, HubRefusal>),
    Had(Result<Clock, HubRefusal>),
}
