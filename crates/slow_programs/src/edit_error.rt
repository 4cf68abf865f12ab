//! Why an edit makes nothing.
ghost use Rattle.std.specs.Prelude.{◌≡◌};

use fixed_numbers::refusals::{LIMIT, MEMORY, RANGE, STALE};
use op_ids::ClockError;
use std::alloc::AllocError;
use thiserror::Error;

/// Why an edit makes nothing.
#[derive(Clone, Copy, Debug, Drop, PartialEq, Eq, Error)]
pub enum EditError {
    /// 1: a growth was refused.
    #[error("memory")]
    Memory,
    /// 6: the document doesn't have the number of operations that was asked for.
    #[error("stale")]
    Stale,
    /// 5: an index outside the visible text.
    #[error("range")]
    Range,
    /// 7: more than 256 characters, or a limit of the store would be passed.
    #[error("limit")]
    Limit,
}

impl EditError {
    ghost use Rattle.std.specs.Prelude.{◌≡◌};
    ghost use Rattle.slow_programs.specs.EditError.{number_of};

    /// The number of the refusal.
    pub fn number(self) -> u8
        ensures { result ≡ number_of self }
    {
        match self {
            EditError::Memory => MEMORY,
            EditError::Stale => STALE,
            EditError::Range => RANGE,
            EditError::Limit => LIMIT,
        }
    }
}

impl From<AllocError> for EditError {
    ghost use Rattle.std.specs.Prelude.{◌≡◌};
    ghost use Rattle.slow_programs.specs.declared.edit_error.EditError.TheVariants.{Memory};

    ghost from_gives = { λ _ result. result ≡ Memory };

    fn from(_: AllocError) -> EditError {
        EditError::Memory
    }
}

impl From<ClockError> for EditError {
    ghost use Rattle.std.specs.Prelude.{◌≡◌};
    ghost use Rattle.slow_programs.specs.EditError.{of_clock};

    ghost from_gives = { λ error result. result ≡ of_clock error };

    fn from(error: ClockError) -> EditError {
        match error {
            ClockError::Memory => EditError::Memory,
            ClockError::Limit => EditError::Limit,
        }
    }
}
