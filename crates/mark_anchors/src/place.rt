//! Places in a text, and what lies between two.
ghost use Rattle.std.specs.Prelude.{◌≡◌, nat_le};
ghost use Rattle.mark_anchors.specs.Force.{number};
ghost use Rattle.mark_anchors.specs.Intervals.{is_within};

/// A place in the text of a document, whose characters are counted from 0, tombstones too.
#[derive(Clone, Copy, Debug)]
pub enum Place {
    /// The start of the text.
    OfStart,
    /// Just before a character. The end of the text is just before the one that would come next.
    Before(usize),
    /// Just after a character.
    After(usize),
}

impl Place {
    /// Whether it is another place or stands before it.
    pub fn is_at_most(&self, other: &Place) -> bool
        ensures { result ≡ nat_le (number self.now) (number other.now) }
    {
        match (self, other) {
            (Place::OfStart, _) => true,
            (_, Place::OfStart) => false,
            (Place::Before(i), Place::Before(j)) => i <= j,
            (Place::Before(i), Place::After(j)) => i <= j,
            (Place::After(i), Place::Before(j)) => i < j,
            (Place::After(i), Place::After(j)) => i <= j,
        }
    }
}

/// The places from one on, and before another one.
#[derive(Clone, Copy, Debug)]
pub struct Interval {
    pub from: Place,
    pub to: Place,
}

impl Interval {
    /// Whether a place is one of them.
    pub(crate) fn holds(&self, place: &Place) -> bool
        ensures { result ≡ is_within self.now (number place.now) }
    {
        self.from.is_at_most(place) && !self.to.is_at_most(place)
    }
}
