//! What a session is answered.

use crate::change_list::ChangeList;
use crate::document_list::DocumentList;
use crate::exported::Exported;
use crate::lasting_list::LastingList;
use crate::peer_list::PeerList;
use crate::place_list::PlaceList;
use crate::refusal::Refusal;
use crate::span_list::SpanList;
use crate::version_list::VersionList;
use list_counts::Room;
use op_model::Text;

/// What a session is answered.
#[derive(Drop)]
pub enum Answer {
    /// An edit is settled; the document had `rev` operations right after it.
    Edited {
        rev: u64,
    },
    /// The text of a document, and how many operations it has, or had then.
    Text {
        rev: u64,
        text: Text,
    },
    /// The spans of a document, and how many operations it has, or had then.
    Spans {
        rev: u64,
        spans: SpanList,
    },
    /// The versions of a document, and how many operations it has.
    Versions {
        rev: u64,
        versions: VersionList,
    },
    /// What changed in a document, and how many operations it has.
    Changes {
        rev: u64,
        changes: ChangeList,
    },
    /// Places of a document that last, and how many operations it has.
    Anchors {
        rev: u64,
        anchors: LastingList,
    },
    /// Where places of a document stand, and how many operations it has.
    Places {
        rev: u64,
        places: PlaceList,
    },
    /// A document as other programs read it, and how many operations it has.
    Exported {
        rev: u64,
        text: Exported,
    },
    /// How many operations are applied, how many of them are settled, and whether edits are taken.
    Status {
        applied: u64,
        settled: u64,
        state: State,
    },
    /// The peers that are linked and have said what they have, and how many sessions are in use.
    Peers {
        peers: PeerList,
        sessions: u64,
    },
    /// What is counted of each document that has operations.
    Documents {
        documents: DocumentList,
    },
    /// How much there is of what there is a limit to.
    Room {
        room: Room,
    },
    /// All that was applied before the stop is settled.
    Stopped,
    /// What was asked for is done, and there is nothing to tell of it.
    Done,
    /// The request isn't served.
    Refused(Refusal),
    /// Several edits at once aren't made, because of this one of them, counted from 0.
    RefusedAt {
        refusal: Refusal,
        at: u64,
    },
}

/// Whether a replica takes edits.
#[derive(Clone, Copy, Debug, Drop, PartialEq, Eq)]
pub enum State {
    /// Edits are taken.
    Open,
    /// Edits aren't taken after a stop.
    Stopping,
    /// Edits aren't taken since the device failed, whether or not there was a stop.
    Failed,
}
