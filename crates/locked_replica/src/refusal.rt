//! Why a hub refuses a call.
ghost use Rattle.std.specs.Prelude.{◌≡◌};

use fixed_numbers::refusals::{BUSY, FAILED};
use group_commit::StoreError;
use hub_parts::LockedRefusal;
use replica_core::Refusal;
use thiserror::Error;

/// Why a hub refuses a call, which then changes nothing but what it says.
#[derive(Clone, Copy, Debug, PartialEq, Eq, Error)]
pub enum HubRefusal {
    /// 1, 5, 6, 7, 10, 20 to 24: the replica refuses.
    #[error("{0}")]
    Replica(Refusal),
    /// 1, 7, 8, 44, 51, 52: the store refuses, or no commit is through.
    #[error("{0}")]
    Store(StoreError),
    /// 8: the records that wait for a commit leave no room.
    #[error("busy")]
    Full,
    /// 9: it was told that the device failed, and the file must be opened again.
    #[error("failed")]
    Failed,
}

impl HubRefusal {
    ghost use Rattle.hub_parts.specs.Refusal.{number_of as number_of_locked};
    ghost use Rattle.locked_replica.specs.Steps.{IsNotOfStore, number_of};

    /// Why the hub refuses a call that its locked part refuses so: with the same number, and not as
    /// its store.
    pub(crate) fn of(refusal: LockedRefusal) -> HubRefusal
        ensures number { number_of result ≡ number_of_locked refusal }
        ensures kind { IsNotOfStore result }
    {
        match refusal {
            LockedRefusal::Replica(refusal) => HubRefusal::Replica(refusal),
            LockedRefusal::Full => HubRefusal::Full,
            LockedRefusal::Failed => HubRefusal::Failed,
        }
    }

    /// The number of the refusal.
    pub fn number(self) -> u8
        ensures { result ≡ number_of self }
    {
        match self {
            HubRefusal::Replica(refusal) => refusal.number(),
            HubRefusal::Store(error) => error.number(),
            HubRefusal::Full => BUSY,
            HubRefusal::Failed => FAILED,
        }
    }
}
