//! Why bytes give no operation.
ghost use Rattle.std.specs.Prelude.{◌≡◌};
ghost use Rattle.change_codec.specs.declared.codec_error.CodecError.TheVariants.{Memory};

use fixed_numbers::refusals::{ANCHOR, KIND, LENGTH, MEMORY, NUMBER, ORDER, SCALAR, UTF8};
use std::alloc::AllocError;
use thiserror::Error;

/// Why bytes give no operation.
#[derive(Clone, Copy, Debug, Drop, PartialEq, Eq, Error)]
pub enum CodecError {
    /// 1: a growth was refused.
    #[error("memory")]
    Memory,
    /// 30: the length isn't from 33 to 1,491, a field reaches past the end of the body, or bytes
    /// are left behind the last one.
    #[error("length")]
    Length,
    /// 31: no such kind of record, of origin or of mark.
    #[error("kind")]
    Kind,
    /// 32: a counter, a replica, a count, the number of deps or the length of a URL is out of its
    /// range.
    #[error("number")]
    Number,
    /// 33: a number that is no Unicode scalar value.
    #[error("scalar")]
    Scalar,
    /// 34: a URL that isn't UTF-8.
    #[error("utf8")]
    Utf8,
    /// 35: the replicas of the deps aren't in strictly rising order.
    #[error("order")]
    Order,
    /// 36: no such anchor, a mark that starts at the end of the text, or one that ends at its
    /// start.
    #[error("anchor")]
    Anchor,
}

impl From<AllocError> for CodecError {
    ghost from_gives = { λ _ e. e ≡ Memory };

    fn from(_error: AllocError) -> CodecError {
        CodecError::Memory
    }
}

impl CodecError {
    ghost use Rattle.change_codec.specs.CodecError.{number_of};

    /// The number of the refusal: 1, or 30 to 36.
    pub fn number(self) -> u8
        ensures { result ≡ number_of self }
    {
        match self {
            CodecError::Memory => MEMORY,
            CodecError::Length => LENGTH,
            CodecError::Kind => KIND,
            CodecError::Number => NUMBER,
            CodecError::Scalar => SCALAR,
            CodecError::Utf8 => UTF8,
            CodecError::Order => ORDER,
            CodecError::Anchor => ANCHOR,
        }
    }
}
