//! Where the places of a text are after changes of it.
ghost use Rattle.std.specs.Prelude.{◌≡◌};
ghost use Rattle.placed_edits.specs.Placed.{begin as begin_of, goes_before as goes_before_of};
ghost use Rattle.placed_edits.specs.Placed.{moved as moved_of};
ghost use Rattle.placed_edits.specs.Placed.{moved_through as moved_through_of, neighbour_of};

use op_model::{Anchor, Change, Lasting, Neighbour};

/// The number of a place that isn't there: no text has so many characters.
pub const NOWHERE: u32 = 4_294_967_295;

/// The neighbour that a place stays with.
pub fn neighbour_of(place: &Lasting) -> Neighbour
    ensures { result ≡ neighbour_of place.now }
{
    match place {
        Lasting::StartOfText => Neighbour::Previous,
        Lasting::Beside(Anchor::After(_)) => Neighbour::Previous,
        Lasting::Beside(Anchor::Before(_)) => Neighbour::Next,
        Lasting::EndOfText => Neighbour::Next,
    }
}

/// The number that stands for a place with so many visible characters before it, if it is there.
pub fn begin(at: Option<usize>) -> u32
    ensures { result ≡ begin_of at }
{
    match at {
        Some(at) => at.min(NOWHERE as usize) as u32,
        None => NOWHERE,
    }
}

/// The number of a place after a change: the place stays with its neighbour. A place that isn't
/// there comes nowhere.
fn moved(side: Neighbour, change: &Change, number: u32) -> u32
    ensures { result ≡ moved_of side change.now number }
{
    if number == NOWHERE {
        return NOWHERE;
    }
    match change {
        Change::Insert { at, text } => {
            if goes_before(*at, side, number) {
                let after = number as usize + text.as_slice().len();
                after.min(NOWHERE as usize) as u32
            } else {
                number
            }
        }
        Change::Delete { at, count } => {
            if number <= *at {
                number
            } else {
                *at + (number - *at).saturating_sub(count.get())
            }
        }
        Change::Mark { .. } | Change::Unmark { .. } => number,
    }
}

/// Whether text that is put in here goes before a place.
fn goes_before(at: u32, side: Neighbour, number: u32) -> bool
    ensures { result ≡ goes_before_of at side number }
{
    at < number || (at == number && matches!(side, Neighbour::Next))
}

/// The number of a place after all of these changes, in their order. A step for each.
pub fn moved_through(side: Neighbour, changes: &[Change], number: u32) -> u32
    ensures { result ≡ moved_through_of side changes.now number }
{
    let mut after = number;
    for change in changes {
        after = moved(side, change, after);
    }
    after
}
