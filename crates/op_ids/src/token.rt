//! The name of an edit.
ghost use Rattle.std.specs.Prelude.{◌≡◌, ℕ, ◌<◌, ◌↔◌, Some, None, IfSome, IsNone};
ghost use Rattle.std.specs.Int.{w128, from_be_bytes, to_be_bytes};

use crate::words::Words;
use std::marker::Model;
use uuid::Uuid;

/// The name that a client gives to an edit, so that the edit acts once however often it is sent: a
/// UUID that isn't nil. Contracts see it as its number, the sixteen bytes read with the highest
/// first.
#[derive(Clone, Copy, Debug, PartialEq, Eq, PartialOrd, Ord, Hash)]
pub struct Token {
    number: Words,
}

impl Model for Token {
    ghost Value = { ℕ };

    ghost view = { λ t. t.number };

    ghost invariant = { λ t. 0 < t.number };

    ghost inverse = { λ n. record { number = n } };
}

impl Token {
    /// The token with these sixteen bytes, or `None` where all of them are zero.
    pub fn read(bytes: [u8; 16]) -> Option<Token>
        ensures none { IsNone result ↔ (from_be_bytes w128 bytes ≡ 0) }
        ensures some { IfSome result (λ t. t ≡ from_be_bytes w128 bytes) }
    {
        let number = u128::from_be_bytes(bytes);
        if number == 0 {
            return None;
        }
        Some(Token {
            number: Words::new(number),
        })
    }

    /// The sixteen bytes, the highest first.
    pub fn bytes(self) -> [u8; 16]
        ensures { result ≡ to_be_bytes w128 self }
    {
        self.number().to_be_bytes()
    }

    /// The token that a UUID is, or `None` for the nil UUID.
    pub fn from_uuid(id: Uuid) -> Option<Token>
        ensures none { IsNone result ↔ (from_be_bytes w128 id ≡ 0) }
        ensures some { IfSome result (λ t. t ≡ from_be_bytes w128 id) }
    {
        Token::read(id.into_bytes())
    }

    /// The sixteen bytes as a number, the highest first.
    pub fn number(self) -> u128
        ensures { result ≡ self }
    {
        self.number.number()
    }
}
