//! Places of the visible text that last.
ghost use Rattle.std.specs.Prelude.{◌≡◌};
ghost use Rattle.op_model.specs.Lasting.{beside_next, beside_previous};

use crate::anchor::Anchor;
use op_ids::OpId;

/// A place of the text that stays with one of its two neighbours, however the text changes around
/// it. It is there as long as the character is known, which a removed one still is.
#[derive(Clone, Copy, Debug, PartialEq, Eq, Hash)]
pub enum Lasting {
    /// At the start of the text, whatever is inserted there later.
    StartOfText,
    /// Just before or just after a character.
    Beside(Anchor),
    /// At the end of the text, whatever is inserted there later.
    EndOfText,
}

/// The neighbour of a place that it stays with.
#[derive(Clone, Copy, Debug, PartialEq, Eq, Hash)]
pub enum Neighbour {
    /// The visible character before it, or the start of the text: what is typed there comes after.
    Previous,
    /// The visible character after it, or the end of the text: what is typed there comes before.
    Next,
}

impl Lasting {
    /// Just after a character, or at the start of the text if there is none.
    pub fn after(id: Option<OpId>) -> Lasting
        ensures { result ≡ beside_previous id }
    {
        match id {
            None => Lasting::StartOfText,
            Some(id) => Lasting::Beside(Anchor::After(id)),
        }
    }

    /// Just before a character, or at the end of the text if there is none.
    pub fn before(id: Option<OpId>) -> Lasting
        ensures { result ≡ beside_next id }
    {
        match id {
            None => Lasting::EndOfText,
            Some(id) => Lasting::Beside(Anchor::Before(id)),
        }
    }
}
