//! Why a shared hub refuses an edit or a merge.
ghost use Rattle.std.specs.Prelude.{◌≡◌};

use fixed_numbers::refusals::STOPPING;
use hub_parts::LockedRefusal;
use replica_core::Refusal;
use thiserror::Error;

/// Why a shared hub refuses a call, which then changes nothing.
#[derive(Clone, Copy, Debug, PartialEq, Eq, Error)]
pub enum SharedRefusal {
    /// 1, 5 to 10, 20 to 24: the locked part refuses.
    #[error("{0}")]
    Locked(LockedRefusal),
    /// 5 or 7: the locked part refuses one of several changes, counted from 0.
    #[error("{0}")]
    Change(LockedRefusal, usize),
    /// 12: it was asked to stop.
    #[error("stopping")]
    Stopping,
}

impl SharedRefusal {
    ghost use Rattle.std.specs.Prelude.{◌≢◌, None};
    ghost use Rattle.fixed_numbers.specs.declared.refusals.TheConstants.{MEMORY};
    ghost use Rattle.shared_hub.specs.Refusal.{number_of, told_at};
    ghost use Rattle.shared_hub.specs.declared.refusal.SharedRefusal.TheVariants.{Stopping};

    /// 1: a growth was refused.
    pub(crate) fn out_of_memory() -> SharedRefusal
        ensures number { number_of result ≡ MEMORY }
        ensures whole { told_at result ≡ None }
        ensures other { result ≢ Stopping }
    {
        SharedRefusal::Locked(LockedRefusal::Replica(Refusal::Memory))
    }

    /// The number of the refusal.
    pub fn number(self) -> u8
        ensures { result ≡ number_of self }
    {
        match self {
            SharedRefusal::Locked(refusal) => refusal.number(),
            SharedRefusal::Change(refusal, _) => refusal.number(),
            SharedRefusal::Stopping => STOPPING,
        }
    }

    /// Which of several changes an edit is refused for, counted from 0, if it is for one of them.
    pub fn place(self) -> Option<usize>
        ensures { result ≡ told_at self }
    {
        match self {
            SharedRefusal::Change(_, at) => Some(at),
            SharedRefusal::Locked(_) | SharedRefusal::Stopping => None,
        }
    }
}
