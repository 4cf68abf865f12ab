//! Why the locked part of a hub refuses a call.
ghost use Rattle.std.specs.Prelude.{◌≡◌};

use fixed_numbers::refusals::{BUSY, FAILED};
use replica_core::Refusal;
use thiserror::Error;

/// Why the locked part of a hub refuses a call, which then changes nothing.
#[derive(Clone, Copy, Debug, PartialEq, Eq, Error)]
pub enum LockedRefusal {
    /// 1, 5, 6, 7, 10, 20 to 24: the replica refuses.
    #[error("{0}")]
    Replica(Refusal),
    /// 8: the records that wait for a commit leave no room.
    #[error("busy")]
    Full,
    /// 9: a meeting has told that the device failed. The file must be opened again.
    #[error("failed")]
    Failed,
}

impl LockedRefusal {
    ghost use Rattle.hub_parts.specs.Refusal.{number_of};
    ghost use Rattle.replica_core.specs.RefusedAt.{is_for_a_change};

    /// The number of the refusal.
    pub fn number(self) -> u8
        ensures { result ≡ number_of self }
    {
        match self {
            LockedRefusal::Replica(refusal) => refusal.number(),
            LockedRefusal::Full => BUSY,
            LockedRefusal::Failed => FAILED,
        }
    }

    /// Whether an edit is refused so for one of its changes: with 5 or 7.
    pub fn is_for_a_change(self) -> bool
        ensures { result ≡ is_for_a_change (number_of self) }
    {
        match self {
            LockedRefusal::Replica(refusal) => refusal.is_for_a_change(),
            LockedRefusal::Full | LockedRefusal::Failed => false,
        }
    }
}
