//! What a line asks for.
use crate::lasting_list::LastingList;
use crate::numbers::Numbers;
use op_model::{EditText, Neighbour};
use placed_edits::PlacedAction;
use span_export::Form;

/// What a line of a session asks for.
#[derive(Debug, Drop)]
pub enum Command {
    /// A change of a document, or several at once, by numbers or at places that last.
    Edit(PlacedAction),
    /// The text of a document, by its number from 1 on: of now, or as it was when it had so many
    /// operations.
    Text {
        doc: u32,
        at_rev: Option<u32>,
    },
    /// The spans of a document likewise.
    Spans {
        doc: u32,
        at_rev: Option<u32>,
    },
    /// The versions of a document, by its number from 1 on, of at most so many operations each.
    Versions {
        doc: u32,
        every: u32,
    },
    /// What changed in a document, by its number from 1 on, since it had so many operations.
    Changes {
        doc: u32,
        since: u32,
    },
    /// Places of a document's text that last, for these numbers of visible characters before them,
    /// each with the neighbour that it stays with.
    Anchors {
        doc: u32,
        at: Numbers,
        side: Neighbour,
    },
    /// Where these places of a document stand now.
    Places {
        doc: u32,
        anchors: LastingList,
    },
    /// Where a text stands in a document, from so many characters on.
    Find {
        doc: u32,
        text: EditText,
        from: u32,
    },
    /// A document, by its number from 1 on, as other programs read it.
    Export {
        doc: u32,
        form: Form,
    },
    /// How far the replica is.
    Status,
    /// Who is connected.
    Peers,
    /// What is counted of each document.
    Documents,
    /// How much there is of what there is a limit to.
    Room,
    /// That no more edits be taken, and all be settled.
    Stop,
}
