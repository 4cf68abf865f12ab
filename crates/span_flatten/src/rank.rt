//! The rank of a mark operation among those of its key.
ghost use Rattle.std.specs.Prelude.{◌≡◌};

use op_ids::OpId;
use op_model::Marking;
use std::cmp::Reverse;

/// Where a mark operation stands among those of its key: the one with the greatest rank decides.
#[derive(Clone, Copy, PartialEq, Eq, PartialOrd, Ord)]
pub struct Rank {
    pub id: OpId,
    /// How many mark operations came before it: of equal ids the earlier one decides.
    pub before: Reverse<usize>,
}

impl Rank {
    /// The rank of a mark operation with this many before it.
    pub(crate) fn of(marking: &Marking, before: usize) -> Rank
        ensures id { result.id ≡ marking.now.id }
        ensures before { result.before.0 ≡ before }
    {
        Rank {
            id: marking.id,
            before: Reverse(before),
        }
    }
}
