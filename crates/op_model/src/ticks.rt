//! A counter of what is read, for bounds on it.
ghost use Rattle.std.specs.Prelude.{◌≡◌, ◌+◌};

use ghost_lists::Written;
use std::marker::Model;

/// How often something was read. It takes no bytes, and counting takes no time: contracts alone see
/// the number.
#[derive(Drop)]
pub struct Ticks {
    seen: Written<u8>,
}

impl Model for Ticks {
    ghost use Rattle.std.specs.Prelude.{ℕ, length};

    ghost Value = { ℕ };

    ghost view = { λ t. length t.seen.items };
}

impl Ticks {
    /// None so far.
    pub fn new() -> Ticks
        ensures { result ≡ 0 }
    {
        Ticks {
            seen: Written::new(),
        }
    }

    /// One more.
    pub fn tick(&mut self)
        ensures { self.new ≡ self.old + 1 }
    {
        self.seen = self.seen.and(&[0]);
    }
}
