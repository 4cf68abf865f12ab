//! Why a link refuses a call.
ghost use Rattle.std.specs.Prelude.{◌≡◌};
ghost use Rattle.causal_sync.specs.declared.link_error.LinkError.TheVariants.{Memory};
ghost use Rattle.causal_sync.specs.LinkError.{number_of};

use change_codec::CodecError;
use fixed_numbers::refusals::{BAD_FRAME, BAD_HELLO, CLOSED, LIMIT, MEMORY};
use std::alloc::AllocError;
use thiserror::Error;

/// Why a link refuses a call.
#[derive(Clone, Copy, Debug, Drop, PartialEq, Eq, Error)]
pub enum LinkError {
    /// 1: a growth was refused.
    #[error("memory")]
    Memory,
    /// 7: the clock of what the peer was sent would name a seventeenth replica, or hold a count
    /// above 2^24.
    #[error("limit")]
    Limit,
    /// 25: a length out of its range, an unknown type, a payload too short or too long, an entry
    /// that breaks its rule, or a record that isn't whole within its frame.
    #[error("bad frame")]
    BadFrame,
    /// 26: the first frame isn't a HELLO of format 3 of another replica, or a later one is a HELLO.
    #[error("bad hello")]
    BadHello,
    /// 27: the link has ended.
    #[error("closed")]
    Closed,
    /// 30 to 36: a record that the codec refuses.
    #[error("{0}")]
    Record(CodecError),
}

impl From<AllocError> for LinkError {
    ghost from_gives = { λ _ e. e ≡ Memory };

    fn from(_error: AllocError) -> LinkError {
        LinkError::Memory
    }
}

impl LinkError {
    /// The number of the refusal: 1, 7, 25 to 27, or 30 to 36.
    pub fn number(self) -> u8
        ensures { result ≡ number_of self }
    {
        match self {
            LinkError::Memory => MEMORY,
            LinkError::Limit => LIMIT,
            LinkError::BadFrame => BAD_FRAME,
            LinkError::BadHello => BAD_HELLO,
            LinkError::Closed => CLOSED,
            LinkError::Record(fault) => fault.number(),
        }
    }
}
