//! Why a daemon isn't asked any further.
ghost use Rattle.std.specs.Prelude.{◌≡◌};
ghost use Rattle.daemon_asking.specs.declared.ask_fault.AskFault.TheVariants.{Memory};

use std::alloc::AllocError;
use thiserror::Error;

/// Why a daemon isn't asked any further.
#[derive(Clone, Copy, Debug, Drop, PartialEq, Eq, Error)]
pub enum AskFault {
    /// 1: a growth was refused.
    #[error("memory")]
    Memory,
    /// 71: the requests can't be read, or the answers can't be printed.
    #[error("stream")]
    Stream,
    /// 71: the connection failed, or ended before a request was answered.
    #[error("unanswered")]
    Unanswered,
}

impl From<AllocError> for AskFault {
    ghost from_gives = { λ _ fault. fault ≡ Memory };

    fn from(_error: AllocError) -> AskFault {
        AskFault::Memory
    }
}
