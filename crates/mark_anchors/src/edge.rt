//! A character at which a mark operation begins or ends.
ghost use Rattle.std.specs.Prelude.{◌≡◌, ◌&&◌, option_to_list};
ghost use Rattle.mark_anchors.specs.Edges.{edge_beside, end_edges, start_edges};

use op_ids::OpId;
use op_model::{Anchor, End, Start};

/// A character at which a mark operation begins or ends.
#[derive(Clone, Copy, Debug)]
pub struct Edge {
    pub id: OpId,
    /// Whether it stands just after the character, and not just before it.
    pub is_after: bool,
    /// Whether the mark operation ends there, and doesn't begin.
    pub is_end: bool,
    /// How many mark operations came before it.
    pub marking: usize,
}

impl Edge {
    /// Whether the mark operation ends there, just after the character.
    pub fn is_end_after(&self) -> bool
        ensures { result ≡ (self.now.is_end && self.now.is_after) }
    {
        self.is_end && self.is_after
    }
}

/// Where a mark operation begins, unless that is the start of the text.
pub(crate) fn start_edge(start: &Start, marking: usize) -> Option<Edge>
    ensures { option_to_list result ≡ start_edges marking start.now }
{
    match start {
        Start::OfText => None,
        Start::From(anchor) => Some(beside(anchor, false, marking)),
    }
}

/// Where a mark operation ends, unless that is the end of the text.
pub(crate) fn end_edge(end: &End, marking: usize) -> Option<Edge>
    ensures { option_to_list result ≡ end_edges marking end.now }
{
    match end {
        End::OfText => None,
        End::To(anchor) => Some(beside(anchor, true, marking)),
    }
}

/// The edge of a mark operation at an anchor.
fn beside(anchor: &Anchor, is_end: bool, marking: usize) -> Edge
    ensures { result ≡ edge_beside anchor.now is_end marking }
{
    match anchor {
        Anchor::Before(id) => Edge {
            id: *id,
            is_after: false,
            is_end,
            marking,
        },
        Anchor::After(id) => Edge {
            id: *id,
            is_after: true,
            is_end,
            marking,
        },
    }
}
