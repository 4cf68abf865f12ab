//! Why a sequence stays as it was.
use fixed_numbers::refusals::{MEMORY, UNKNOWN_ID};
use std::alloc::AllocError;
use thiserror::Error;

/// Why a sequence stays as it was.
#[derive(Clone, Copy, Debug, PartialEq, Eq, Error)]
pub enum SequenceError {
    /// 1: a growth was refused.
    #[error("memory")]
    Memory,
    /// 60: an operation names no character of the document.
    #[error("unknown id")]
    UnknownId,
}

impl SequenceError {
    ghost use Rattle.std.specs.Prelude.{◌≡◌};
    ghost use Rattle.char_sequence.specs.Refusal.{number_of};

    /// The number of the refusal.
    pub fn number(self) -> u8
        ensures { result ≡ number_of self }
    {
        match self {
            SequenceError::Memory => MEMORY,
            SequenceError::UnknownId => UNKNOWN_ID,
        }
    }
}

impl From<AllocError> for SequenceError {
    ghost use Rattle.std.specs.Prelude.{◌≡◌};
    ghost use Rattle.char_sequence.specs.declared.error.SequenceError.TheVariants.{Memory};

    ghost from_gives = { λ _ result. result ≡ Memory };

    fn from(_: AllocError) -> SequenceError {
        SequenceError::Memory
    }
}
