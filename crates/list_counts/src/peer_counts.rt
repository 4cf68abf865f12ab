//! What is known of a peer.
ghost use Rattle.std.specs.Prelude.{◌≡◌};
ghost use Rattle.list_counts.specs.Counts.{counts_of};

use crate::sums::{lacking, total};
use op_ids::{Clock, ReplicaId};

/// What is known of a peer, in numbers of operations.
#[derive(Clone, Copy, Debug, Drop, PartialEq, Eq)]
pub struct PeerCounts {
    /// Its replica.
    pub replica: ReplicaId,
    /// How many it has said that it has.
    pub has: u64,
    /// How many of those that are here aren't among them.
    pub lacks: u64,
}

impl PeerCounts {
    /// The counts of a peer that has what its clock counts, beside what is here. At most 256 steps.
    pub fn of(replica: ReplicaId, its: &Clock, here: &Clock) -> PeerCounts
        ensures { result ≡ counts_of replica its.now here.now }
    {
        PeerCounts {
            replica,
            has: total(its),
            lacks: lacking(its, here),
        }
    }
}
