//! Some numbers of a request.
ghost use Rattle.std.specs.Prelude.{◌≡◌};

use std::marker::Model;

/// Numbers of visible characters before places of a text, or of documents. Contracts see the list
/// of them.
#[derive(Debug, Drop)]
pub struct Numbers {
    numbers: Vec<u32>,
}

impl Model for Numbers {
    ghost use Rattle.std.specs.Prelude.{List, ℕ};

    ghost Value = { List ℕ };

    ghost view = { λ l. l.numbers.items };
}

impl From<Vec<u32>> for Numbers {
    ghost from_gives = { λ numbers result. result ≡ numbers.items };

    fn from(numbers: Vec<u32>) -> Numbers {
        Numbers { numbers }
    }
}

impl Numbers {
    /// The numbers, in order.
    pub fn as_slice(&self) -> &[u32]
        ensures { result.now ≡ self.now }
    {
        &self.numbers
    }
}
