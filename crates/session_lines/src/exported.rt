//! A document as other programs read it, as an answer has it.
ghost use Rattle.std.specs.Prelude.{◌≡◌};

use std::marker::Model;

/// A document as other programs read it, in UTF-8. Contracts see the list of its bytes.
#[derive(Drop)]
pub struct Exported {
    bytes: Vec<u8>,
}

impl Model for Exported {
    ghost use Rattle.std.specs.Prelude.{List, ℕ};

    ghost Value = { List ℕ };

    ghost view = { λ e. e.bytes.items };
}

impl From<Vec<u8>> for Exported {
    ghost from_gives = { λ bytes result. result ≡ bytes.items };

    fn from(bytes: Vec<u8>) -> Exported {
        Exported { bytes }
    }
}

impl Exported {
    /// The bytes.
    pub fn as_slice(&self) -> &[u8]
        ensures { result.now ≡ self.now }
    {
        &self.bytes
    }
}
