//! Why a replica refuses a call.
use fixed_numbers::refusals::{
    BAD_OPERATION, COUNTER, DOCUMENT, LIMIT, MEMORY, NAMES, OWN_UNKNOWN, RANGE, STALE, STEPS,
    STORE_LIMIT,
};
use std::alloc::AllocError;
use thiserror::Error;

/// Why a replica refuses a call, which then changes nothing.
#[derive(Clone, Copy, Debug, Drop, PartialEq, Eq, Error)]
pub enum Refusal {
    /// 1: a growth was refused.
    #[error("memory")]
    Memory,
    /// 5: an index outside the visible text.
    #[error("range")]
    Range,
    /// 6: the document doesn't have the number of operations that was asked for.
    #[error("stale")]
    Stale,
    /// 7: more than 256 characters, or a limit of the store would be passed.
    #[error("limit")]
    Limit,
    /// 10: no place for kept steps.
    #[error("steps")]
    Steps,
    /// 20: an operation of the own replica that it doesn't know.
    #[error("own unknown")]
    OwnUnknown,
    /// 21: a counter that isn't greater than that of the last operation of its replica.
    #[error("counter")]
    Counter,
    /// 22: the operation names what is no insert of its document that it depends on.
    #[error("names")]
    Names,
    /// 23: the document number 0.
    #[error("document")]
    Document,
    /// 24: a limit of the store would be passed.
    #[error("store limit")]
    StoreLimit,
    /// 47: an operation of an opened list that may not follow those before it.
    #[error("bad operation")]
    BadOperation,
}

impl Refusal {
    ghost use Rattle.std.specs.Prelude.{◌≡◌};
    ghost use Rattle.replica_core.specs.Refusal.{number_of};
    ghost use Rattle.replica_core.specs.RefusedAt.{is_for_a_change};

    /// Whether an action is refused so for one of its changes: `Range` (5) and `Limit` (7).
    pub fn is_for_a_change(self) -> bool
        ensures { result ≡ is_for_a_change (number_of self) }
    {
        match self {
            Refusal::Range | Refusal::Limit => true,
            _ => false,
        }
    }

    /// The number of the refusal.
    pub fn number(self) -> u8
        ensures { result ≡ number_of self }
    {
        match self {
            Refusal::Memory => MEMORY,
            Refusal::Range => RANGE,
            Refusal::Stale => STALE,
            Refusal::Limit => LIMIT,
            Refusal::Steps => STEPS,
            Refusal::OwnUnknown => OWN_UNKNOWN,
            Refusal::Counter => COUNTER,
            Refusal::Names => NAMES,
            Refusal::Document => DOCUMENT,
            Refusal::StoreLimit => STORE_LIMIT,
            Refusal::BadOperation => BAD_OPERATION,
        }
    }
}

impl From<AllocError> for Refusal {
    ghost use Rattle.std.specs.Prelude.{◌≡◌};
    ghost use Rattle.replica_core.specs.declared.refusal.Refusal.TheVariants.{Memory};

    ghost from_gives = { λ _ result. result ≡ Memory };

    fn from(_: AllocError) -> Refusal {
        Refusal::Memory
    }
}
