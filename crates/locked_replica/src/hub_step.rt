//! A call of a hub, as data.
use op_ids::Clock;
use op_model::{Action, Op};
use replica_core::Ticket;

/// A call of a hub, as one of a list of calls.
#[derive(Debug, Drop)]
pub enum HubStep {
    /// An edit of a session.
    Edit { session: u64, edit: Action },
    /// An operation of a peer.
    Merge { peer: u64, op: Op },
    /// The beginning of a commit.
    Begin,
    /// The next device call of the commit.
    DeviceStep,
    /// The settlement of a commit that is through.
    Settle,
    /// The acknowledgement of an edit.
    Ack(Ticket),
    /// What a clock doesn't count of the settled operations.
    Tell(Clock),
    /// The clock of the settled operations.
    Have,
}
