//! Why a clock stays as it was.
ghost use Rattle.std.specs.Prelude.{◌≡◌};
ghost use Rattle.op_ids.specs.declared.clock_error.ClockError.TheVariants.{Memory};

use fixed_numbers::refusals::{LIMIT, MEMORY};
use std::alloc::AllocError;
use thiserror::Error;

/// Why a clock stays as it was.
#[derive(Clone, Copy, Debug, Drop, PartialEq, Eq, Error)]
pub enum ClockError {
    /// 1: a growth was refused.
    #[error("memory")]
    Memory,
    /// 7: there would be a seventeenth replica, or a count above 2^24.
    #[error("limit")]
    Limit,
}

impl From<AllocError> for ClockError {
    ghost from_gives = { λ _ e. e ≡ Memory };

    fn from(_error: AllocError) -> ClockError {
        ClockError::Memory
    }
}

impl ClockError {
    ghost use Rattle.op_ids.specs.ClockError.{number_of};

    /// The number of the refusal: 1 or 7.
    pub fn number(self) -> u8
        ensures { result ≡ number_of self }
    {
        match self {
            ClockError::Memory => MEMORY,
            ClockError::Limit => LIMIT,
        }
    }
}
