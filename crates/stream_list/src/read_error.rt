//! Why a stream isn't read.
ghost use Rattle.std.specs.Prelude.{◌≡◌};
ghost use Rattle.stream_list.specs.declared.read_error.ReadError.TheVariants.{Memory};

use change_codec::StreamError;
use fixed_numbers::refusals::{BAD_OPERATION, BAD_STREAM, MEMORY};
use std::alloc::AllocError;
use thiserror::Error;

/// Why a stream isn't read.
#[derive(Clone, Copy, Debug, Drop, PartialEq, Eq, Error)]
pub enum ReadError {
    /// 1: a growth was refused.
    #[error("memory")]
    Memory,
    /// 46: the bytes don't spell so many operations.
    #[error("bad stream")]
    Stream,
    /// 47: they do, and one by one the records of these take more than 2^30 bytes.
    #[error("bad operation")]
    Long,
}

impl From<AllocError> for ReadError {
    ghost from_gives = { λ _ e. e ≡ Memory };

    fn from(_error: AllocError) -> ReadError {
        ReadError::Memory
    }
}

impl From<StreamError> for ReadError {
    ghost use Rattle.stream_list.specs.ReadError.{of_stream};

    ghost from_gives = { λ fault e. e ≡ of_stream fault };

    fn from(fault: StreamError) -> ReadError {
        match fault {
            StreamError::Memory => ReadError::Memory,
            StreamError::Stream => ReadError::Stream,
        }
    }
}

impl ReadError {
    ghost use Rattle.stream_list.specs.ReadError.{number_of};

    /// The number of the refusal: 1, 46 or 47.
    pub fn number(self) -> u8
        ensures { result ≡ number_of self }
    {
        match self {
            ReadError::Memory => MEMORY,
            ReadError::Stream => BAD_STREAM,
            ReadError::Long => BAD_OPERATION,
        }
    }
}
