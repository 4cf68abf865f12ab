//! Why no operations were made.
use fixed_numbers::refusals::{LIMIT, MEMORY, RANGE};
use op_ids::ClockError;
use std::alloc::AllocError;
use thiserror::Error;

/// Why no operations were made.
#[derive(Clone, Copy, Debug, PartialEq, Eq, Error)]
pub enum MakeError {
    /// 1: a growth was refused.
    #[error("memory")]
    Memory,
    /// 5: an index outside the visible text.
    #[error("range")]
    Range,
    /// 7: more than 256 characters, or a limit of counters or of a clock would be passed.
    #[error("limit")]
    Limit,
}

impl MakeError {
    ghost use Rattle.std.specs.Prelude.{◌≡◌};
    ghost use Rattle.doc_core.specs.Refusal.{number_of};

    /// The number of the refusal.
    pub fn number(self) -> u8
        ensures { result ≡ number_of self }
    {
        match self {
            MakeError::Memory => MEMORY,
            MakeError::Range => RANGE,
            MakeError::Limit => LIMIT,
        }
    }
}

impl From<AllocError> for MakeError {
    ghost use Rattle.std.specs.Prelude.{◌≡◌};
    ghost use Rattle.doc_core.specs.declared.make_error.MakeError.TheVariants.{Memory};

    ghost from_gives = { λ _ result. result ≡ Memory };

    fn from(_: AllocError) -> MakeError {
        MakeError::Memory
    }
}

impl From<ClockError> for MakeError {
    ghost use Rattle.std.specs.Prelude.{◌≡◌};
    ghost use Rattle.doc_core.specs.Refusal.{of_clock};

    ghost from_gives = { λ error result. result ≡ of_clock error };

    fn from(error: ClockError) -> MakeError {
        match error {
            ClockError::Memory => MakeError::Memory,
            ClockError::Limit => MakeError::Limit,
        }
    }
}
