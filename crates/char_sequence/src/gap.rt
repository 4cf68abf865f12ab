//! A place in the text, as an edit names it.
ghost use Rattle.std.specs.Prelude.{◌≡◌};

use crate::place::Place;
use op_ids::OpId;

/// A place in the text, behind its first `count` characters that a reader sees and before the
/// tombstones that follow. `Sequence::gap` finds it, and it is one as long as the sequence stays.
#[derive(Clone, Copy, Debug)]
pub struct Gap {
    pub(crate) count: usize,
    /// The last of these characters, if there are any.
    pub(crate) before: Option<OpId>,
    pub(crate) place: Place,
}

impl Gap {
    /// How many characters that a reader sees stand before it. Constant.
    pub fn count(&self) -> usize
        ensures { result ≡ self.now.count }
    {
        self.count
    }
}

/// A character that a reader sees, and the place behind it.
#[derive(Clone, Copy, Debug)]
pub struct Seen {
    pub id: OpId,
    pub behind: Place,
}
