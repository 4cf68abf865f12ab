//! Places beside characters, and where marks begin and end.
ghost use Rattle.std.specs.Prelude.{◌≡◌, ◌∷◌, []};
ghost use Rattle.op_model.specs.Causality.{named_by_anchor, named_by_end, named_by_start, optional};
ghost use Rattle.op_model.specs.Made.{start_before, end_before, end_after};

use op_ids::OpId;

/// A place beside a character, which is named by the id of the operation that inserted it. It keeps
/// its place when text is inserted around it, and when the character is removed.
#[derive(Clone, Copy, Debug, PartialEq, Eq, Hash)]
pub enum Anchor {
    /// Just before the character.
    Before(OpId),
    /// Just after the character.
    After(OpId),
}

/// Where a mark operation begins.
#[derive(Clone, Copy, Debug, PartialEq, Eq, Hash)]
pub enum Start {
    /// At the start of the text, whatever is inserted there later.
    OfText,
    /// At an anchor.
    From(Anchor),
}

/// Where a mark operation ends.
#[derive(Clone, Copy, Debug, PartialEq, Eq, Hash)]
pub enum End {
    /// At an anchor.
    To(Anchor),
    /// At the end of the text, whatever is inserted there later.
    OfText,
}

impl Anchor {
    /// The character that it stands beside.
    pub fn character(&self) -> OpId
        ensures { result ∷ [] ≡ named_by_anchor self.now }
    {
        match self {
            Anchor::Before(id) => *id,
            Anchor::After(id) => *id,
        }
    }
}

impl Start {
    /// Just before a character, or at the start of the text if there is none.
    pub fn before(id: Option<OpId>) -> Start
        ensures { result ≡ start_before id }
    {
        match id {
            None => Start::OfText,
            Some(id) => Start::From(Anchor::Before(id)),
        }
    }

    /// The character that it names, if it names one.
    pub fn character(&self) -> Option<OpId>
        ensures { optional result ≡ named_by_start self.now }
    {
        match self {
            Start::OfText => None,
            Start::From(anchor) => Some(anchor.character()),
        }
    }
}

impl End {
    /// Just before a character, or at the end of the text if there is none.
    pub fn before(id: Option<OpId>) -> End
        ensures { result ≡ end_before id }
    {
        match id {
            None => End::OfText,
            Some(id) => End::To(Anchor::Before(id)),
        }
    }

    /// Just after a character, or at the end of the text if there is none.
    pub fn after(id: Option<OpId>) -> End
        ensures { result ≡ end_after id }
    {
        match id {
            None => End::OfText,
            Some(id) => End::To(Anchor::After(id)),
        }
    }

    /// The character that it names, if it names one.
    pub fn character(&self) -> Option<OpId>
        ensures { optional result ≡ named_by_end self.now }
    {
        match self {
            End::To(anchor) => Some(anchor.character()),
            End::OfText => None,
        }
    }
}
