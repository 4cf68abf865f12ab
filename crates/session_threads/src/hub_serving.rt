//! The commands that a desk over a hub serves.
ghost use Rattle.std.specs.Prelude.{◌≡◌, None, Some};
ghost use Rattle.session_threads.specs.HubServing.{comes_too_late, ServesEdit, ServesPlaced, ServesText};
ghost use Rattle.session_threads.specs.HubServing.{ServesSpans, ServesVersions};
ghost use Rattle.session_threads.specs.HubServing.{ServesChanges, ServesAnchors, ServesPlaces, ServesStatus};
ghost use Rattle.session_threads.specs.HubServing.{ServesFind, ServesExport};
ghost use Rattle.session_threads.specs.HubServing.{ServesDocuments, ServesPeers, ServesRoom, ServesStop};

use crate::committing::commit;
use crate::desk::Desk;
use crate::hub_desk::HubDesk;
use crate::hub_edit::answer_edit;
use crate::looking::{answer_export, answer_find};
use disk_trait::Disk;
use op_model::{Action, EditText, Neighbour};
use placed_edits::PlacedAction;
use session_lines::{
    Answer, ChangeList, Command, DocumentList, LastingList, Numbers, PeerList, PlaceList, Refusal,
    SpanList, State, VersionList,
};
use span_export::Form;
use std::alloc::Global;

impl<D: Disk> Desk for HubDesk<D> {
    ghost use Rattle.session_threads.specs.HubServing.{Serves};

    ghost serves = { Serves D.DiskFacts };

    fn line_read(&mut self) {}

    fn serve(&mut self, alloc: Global, command: Command) -> Answer {
        match command {
            Command::Edit(placed) => self.edit_placed(alloc, &placed),
            Command::Text { doc, at_rev } => self.text(doc, at_rev),
            Command::Spans { doc, at_rev } => self.spans(doc, at_rev),
            Command::Versions { doc, every } => self.versions(doc, every),
            Command::Changes { doc, since } => self.changes(doc, since),
            Command::Anchors { doc, at, side } => self.anchors(doc, &at, side),
            Command::Places { doc, anchors } => self.places(doc, &anchors),
            Command::Find { doc, text, from } => self.find(alloc, doc, &text, from),
            Command::Export { doc, form } => self.export(alloc, doc, form),
            Command::Status => self.status(),
            Command::Peers => alone(alloc),
            Command::Documents => self.documents(),
            Command::Room => self.room(),
            Command::Stop => self.stop(),
        }
    }
}

impl<D: Disk> HubDesk<D> {
    /// Makes an edit at places that last, or by numbers. Places are looked up only for an edit that
    /// neither comes too late nor was made before.
    fn edit_placed(&mut self, alloc: Global, placed: &PlacedAction) -> Answer
        ensures { ServesPlaced D.DiskFacts self.old placed.now result self.new }
    {
        let edit = placed.action();
        if self.comes_too_late(edit) {
            return Answer::Refused(Refusal::Stopping);
        }
        if !placed.is_placed() || self.hub.known(edit).is_some() {
            return self.edit(edit);
        }
        match self.hub.asked(alloc, placed) {
            Ok(edit) => self.edit(&edit),
            Err(_) => Answer::Refused(Refusal::Memory),
        }
    }

    /// Makes an edit, unless it comes too late.
    fn edit(&mut self, edit: &Action) -> Answer
        ensures { ServesEdit D.DiskFacts self.old edit.now result self.new }
    {
        if self.comes_too_late(edit) {
            return Answer::Refused(Refusal::Stopping);
        }
        answer_edit(&mut self.hub, self.session, edit)
    }

    /// Whether an edit comes after a stop, and wasn't made before, under its token.
    fn comes_too_late(&self, edit: &Action) -> bool
        ensures { result ≡ comes_too_late self.now edit.now }
    {
        self.is_stopping && self.hub.known(edit).is_none()
    }

    /// The text of a document, of now or as it was when it had so many operations.
    fn text(&self, doc: u32, at_rev: Option<u32>) -> Answer
        ensures { ServesText self.now doc at_rev result }
    {
        match at_rev {
            None => self.text_now(doc),
            Some(rev) => self.text_at(doc, rev),
        }
    }

    /// The spans of a document likewise.
    fn spans(&self, doc: u32, at_rev: Option<u32>) -> Answer
        ensures { ServesSpans self.now doc at_rev result }
    {
        match at_rev {
            None => self.spans_now(doc),
            Some(rev) => self.spans_at(doc, rev),
        }
    }

    /// The text of a document.
    fn text_now(&self, doc: u32) -> Answer
        ensures { ServesText self.now doc None result }
    {
        match self.hub.text(doc) {
            Ok(text) => Answer::Text {
                rev: self.hub.rev(doc) as u64,
                text,
            },
            Err(_) => Answer::Refused(Refusal::Memory),
        }
    }

    /// The text of a document as it was when it had so many operations.
    fn text_at(&self, doc: u32, rev: u32) -> Answer
        ensures { ServesText self.now doc (Some rev) result }
    {
        match self.hub.text_at(doc, rev as usize) {
            Ok(Some(text)) => Answer::Text {
                rev: rev as u64,
                text,
            },
            Ok(None) => Answer::Refused(Refusal::Stale),
            Err(_) => Answer::Refused(Refusal::Memory),
        }
    }

    /// The spans of a document as it was when it had so many operations.
    fn spans_at(&self, doc: u32, rev: u32) -> Answer
        ensures { ServesSpans self.now doc (Some rev) result }
    {
        match self.hub.spans_at(doc, rev as usize) {
            Ok(Some(spans)) => Answer::Spans {
                rev: rev as u64,
                spans: SpanList::from(spans),
            },
            Ok(None) => Answer::Refused(Refusal::Stale),
            Err(_) => Answer::Refused(Refusal::Memory),
        }
    }

    /// The versions of a document.
    fn versions(&self, doc: u32, every: u32) -> Answer
        ensures { ServesVersions self.now doc every result }
    {
        match self.hub.versions(doc, every) {
            Ok(versions) => Answer::Versions {
                rev: self.hub.rev(doc) as u64,
                versions: VersionList::from(versions),
            },
            Err(_) => Answer::Refused(Refusal::Memory),
        }
    }

    /// The text of a document, cut where its marks change.
    fn spans_now(&self, doc: u32) -> Answer
        ensures { ServesSpans self.now doc None result }
    {
        match self.hub.spans(doc) {
            Ok(spans) => Answer::Spans {
                rev: self.hub.rev(doc) as u64,
                spans: SpanList::from(spans),
            },
            Err(_) => Answer::Refused(Refusal::Memory),
        }
    }

    /// What changed in a document.
    fn changes(&self, doc: u32, since: u32) -> Answer
        ensures { ServesChanges self.now doc since result }
    {
        match self.hub.changes(doc, since as usize) {
            Ok(Some(steps)) => Answer::Changes {
                rev: self.hub.rev(doc) as u64,
                changes: ChangeList::from(steps),
            },
            Ok(None) => Answer::Refused(Refusal::Stale),
            Err(_) => Answer::Refused(Refusal::Memory),
        }
    }

    /// Places of a document that last.
    fn anchors(&self, doc: u32, at: &Numbers, side: Neighbour) -> Answer
        ensures { ServesAnchors self.now doc at.now side result }
    {
        match self.hub.anchors(doc, at.as_slice(), side) {
            Ok(Some(places)) => Answer::Anchors {
                rev: self.hub.rev(doc) as u64,
                anchors: LastingList::from(places),
            },
            Ok(None) => Answer::Refused(Refusal::Range),
            Err(_) => Answer::Refused(Refusal::Memory),
        }
    }

    /// Where places of a document stand.
    fn places(&self, doc: u32, anchors: &LastingList) -> Answer
        ensures { ServesPlaces self.now doc anchors.now result }
    {
        match self.hub.places(doc, anchors.as_slice()) {
            Ok(places) => Answer::Places {
                rev: self.hub.rev(doc) as u64,
                places: PlaceList::from(places),
            },
            Err(_) => Answer::Refused(Refusal::Memory),
        }
    }

    /// Where a text stands in a document.
    fn find(&self, alloc: Global, doc: u32, sought: &EditText, from: u32) -> Answer
        ensures { ServesFind self.now doc sought.now from result }
    {
        match self.hub.text(doc) {
            Ok(text) => answer_find(alloc, self.hub.rev(doc) as u64, &text, sought, from),
            Err(_) => Answer::Refused(Refusal::Memory),
        }
    }

    /// A document as other programs read it.
    fn export(&self, alloc: Global, doc: u32, form: Form) -> Answer
        ensures { ServesExport self.now doc form result }
    {
        match self.hub.spans(doc) {
            Ok(spans) => answer_export(alloc, self.hub.rev(doc) as u64, &spans, form),
            Err(_) => Answer::Refused(Refusal::Memory),
        }
    }

    /// What is counted of each document.
    fn documents(&self) -> Answer
        ensures { ServesDocuments self.now result }
    {
        match self.hub.documents() {
            Ok(counts) => Answer::Documents {
                documents: DocumentList::from(counts),
            },
            Err(_) => Answer::Refused(Refusal::Memory),
        }
    }

    /// How much there is of what there is a limit to.
    fn room(&self) -> Answer
        ensures { ServesRoom self.now result }
    {
        Answer::Room {
            room: self.hub.room(),
        }
    }

    /// How far the hub is.
    fn status(&self) -> Answer
        ensures { ServesStatus self.now result }
    {
        let state = if self.hub.has_failed() {
            State::Failed
        } else if self.is_stopping {
            State::Stopping
        } else {
            State::Open
        };
        Answer::Status {
            applied: self.hub.list().len() as u64,
            settled: self.hub.settled() as u64,
            state,
        }
    }

    /// Takes no more edits, and settles all that there is.
    fn stop(&mut self) -> Answer
        ensures { ServesStop D.DiskFacts self.old result self.new }
    {
        self.is_stopping = true;
        if commit(&mut self.hub) {
            Answer::Stopped
        } else {
            Answer::Refused(Refusal::Failed)
        }
    }
}

/// Who is connected: this session alone.
fn alone(alloc: Global) -> Answer
    ensures { ServesPeers result }
{
    Answer::Peers {
        peers: PeerList::from(Vec::new(alloc)),
        sessions: 1,
    }
}
