//! The formats of a stream of records.
ghost use Rattle.std.specs.Prelude.{◌≡◌};
ghost use Rattle.change_codec.specs.Formats.{has_tokens as has_tokens_of, longest as longest_of};

use fixed_numbers::sizes::{MAX_RECORD, MAX_TOKEN_RECORD};

/// The format of a stream of records: which kinds of record it may have. Whatever a format has,
/// the ones after it have too.
#[derive(Clone, Copy, Debug, PartialEq, Eq)]
pub enum Format {
    /// Records of kinds 1 to 4: operations without a token.
    First,
    /// The same kinds of single operations.
    Second,
    /// Records of kinds 17 to 20 beside them: the kinds 1 to 4 with a token.
    Third,
}

impl Format {
    /// Whether an operation may have a token.
    pub fn has_tokens(self) -> bool
        ensures { result ≡ has_tokens_of self }
    {
        match self {
            Format::First | Format::Second => false,
            Format::Third => true,
        }
    }

    /// The most bytes of the body of a record: 1,491, and 1,507 in the third format.
    pub fn longest(self) -> usize
        ensures { result ≡ longest_of self }
    {
        if self.has_tokens() {
            MAX_TOKEN_RECORD
        } else {
            MAX_RECORD
        }
    }
}
