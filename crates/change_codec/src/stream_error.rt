//! Why bytes give no list of operations.
ghost use Rattle.std.specs.Prelude.{◌≡◌};
ghost use Rattle.change_codec.specs.declared.stream_error.StreamError.TheVariants.{Memory};

use fixed_numbers::refusals::{BAD_STREAM, MEMORY};
use std::alloc::AllocError;
use thiserror::Error;

/// Why bytes give no list of operations.
#[derive(Clone, Copy, Debug, Drop, PartialEq, Eq, Error)]
pub enum StreamError {
    /// 1: a growth was refused.
    #[error("memory")]
    Memory,
    /// 46: the bytes aren't the records of operations, one after another.
    #[error("bad stream")]
    Stream,
}

impl From<AllocError> for StreamError {
    ghost from_gives = { λ _ e. e ≡ Memory };

    fn from(_error: AllocError) -> StreamError {
        StreamError::Memory
    }
}

impl StreamError {
    ghost use Rattle.change_codec.specs.StreamError.{number_of};

    /// The number of the refusal: 1 or 46.
    pub fn number(self) -> u8
        ensures { result ≡ number_of self }
    {
        match self {
            StreamError::Memory => MEMORY,
            StreamError::Stream => BAD_STREAM,
        }
    }
}
