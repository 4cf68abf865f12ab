//! Why there are no spans.
use fixed_numbers::refusals::MEMORY;
use std::alloc::AllocError;
use thiserror::Error;

/// Why there are no spans.
#[derive(Clone, Copy, Debug, PartialEq, Eq, Error)]
pub enum SpansError {
    /// 1: a growth was refused.
    #[error("memory")]
    Memory,
    /// 1 too: the spans would list more than 1,048,576 comment ids.
    #[error("memory")]
    Listing,
}

impl SpansError {
    ghost use Rattle.std.specs.Prelude.{◌≡◌};
    ghost use Rattle.fixed_numbers.specs.declared.refusals.TheConstants.{MEMORY};

    /// The number of the refusal.
    pub fn number(self) -> u8
        ensures { result ≡ MEMORY }
    {
        match self {
            SpansError::Memory | SpansError::Listing => MEMORY,
        }
    }
}

impl From<AllocError> for SpansError {
    ghost use Rattle.std.specs.Prelude.{◌≡◌};
    ghost use Rattle.span_flatten.specs.declared.error.SpansError.TheVariants.{Memory};

    ghost from_gives = { λ _ result. result ≡ Memory };

    fn from(_: AllocError) -> SpansError {
        SpansError::Memory
    }
}

impl From<SpansError> for AllocError {
    fn from(_: SpansError) -> AllocError {
        AllocError
    }
}
