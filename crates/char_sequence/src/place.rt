//! A place between cells, and the cells from one up to another.
ghost use Rattle.std.specs.Prelude.{◌↔◌, IsTrue};
ghost use Rattle.char_sequence.specs.Reading.{IsAhead};

/// A place between cells: `chunk` chunks before its own, and `at` cells before it in its own.
#[derive(Clone, Copy, Debug)]
pub struct Place {
    pub chunk: usize,
    pub at: usize,
}

/// The cells from a place on, up to another one.
#[derive(Clone, Copy, Debug)]
pub struct Stretch {
    pub from: Place,
    pub to: Place,
}

impl Place {
    /// Whether it stands in a chunk before another place's, or in the same one before it.
    pub(crate) fn is_ahead_of(&self, other: &Place) -> bool
        ensures { IsTrue result ↔ IsAhead self.now other.now }
    {
        self.chunk < other.chunk || self.chunk == other.chunk && self.at < other.at
    }
}
