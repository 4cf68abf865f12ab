//! Places of a document that last.
ghost use Rattle.std.specs.Prelude.{◌≡◌, List, length, nat_le, Some, None, if◌then◌else◌};
ghost use Rattle.op_model.specs.declared.op.Op.{Op};
ghost use Rattle.op_model.specs.Lasting.{at_of, place_of};
ghost use Rattle.op_model.specs.Text.{visible};
ghost use Rattle.doc_core.specs.Standing.{StandsFor};

use crate::doc::Doc;
use op_model::{Lasting, Neighbour};

impl Doc {
    /// The place after `at` visible characters, that stays with one of its neighbours from now on;
    /// `None` where there are fewer. Takes no memory. Costs what `Sequence::visible` does: of n
    /// characters, tombstones counted, at most n/16384 + 578 are read or counted.
    pub fn place(&self, at: usize, side: Neighbour) -> Option<Lasting>
        ensures { (ops : List Op) → StandsFor self.now ops
            → result ≡ (if nat_le at (length (visible ops self.now.number))
            then Some (place_of ops self.now.number at side) else None) }
    {
        if !self.shows(at) {
            return None;
        }
        match side {
            Neighbour::Previous => Some(Lasting::after(self.last_before(at))),
            Neighbour::Next => Some(Lasting::before(self.sequence.visible(at))),
        }
    }

    /// How many visible characters stand before a place that lasts, or `None` where the character
    /// that it stays with isn't known; a removed one is known. Takes no memory, and makes no pass
    /// over the document: costs what `Sequence::at` does.
    pub fn at(&self, place: &Lasting) -> Option<usize>
        ensures { (ops : List Op) → StandsFor self.now ops
            → result ≡ at_of ops self.now.number place.now }
    {
        self.sequence.at(place)
    }
}
