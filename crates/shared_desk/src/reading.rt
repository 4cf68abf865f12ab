//! What a desk over a shared hub reads: each answer is that of one moment, under the hub's lock.
ghost use Rattle.std.specs.Prelude.{None};
ghost use Rattle.shared_desk.specs.Serving.{ServesAnchors, ServesChanges, ServesDocuments};
ghost use Rattle.shared_desk.specs.Serving.{ServesExport, ServesFind, ServesPeers, ServesPlaces};
ghost use Rattle.shared_desk.specs.Serving.{ServesRoom, ServesSpans, ServesStatus, ServesText};

use crate::desk::SharedDesk;
use op_model::{EditText, Neighbour};
use pass_books::BookNames;
use session_lines::{
    Answer, ChangeList, DocumentList, LastingList, Numbers, PeerList, PlaceList, Refusal, SpanList,
    State,
};
use session_threads::{answer_export, answer_find};
use shared_hub::{Checkpoint, Shown};
use span_export::Form;
use std::alloc::Global;
use std::sync::Wait;

impl<'a, R: Wait, J: BookNames, C: Checkpoint> SharedDesk<'a, R, J, C> {
    /// The text of a document. Those who read take turns, since a reading holds the hub's lock: so
    /// an edit, which takes that lock a few times, waits for no more readings than that.
    pub(crate) fn text_now(&mut self, doc: u32) -> Answer
        ensures { ServesText self.old doc None result self.new }
    {
        let _turn = self.daemon.read_turn.lock(self.daemon.rt);
        match self.daemon.shared.text(self.daemon.rt, &mut self.pass, doc) {
            Ok(Shown { rev, content }) => Answer::Text { rev, text: content },
            Err(_) => Answer::Refused(Refusal::Memory),
        }
    }

    /// The text of a document, cut where its marks change, in turn with others who read.
    pub(crate) fn spans_now(&mut self, doc: u32) -> Answer
        ensures { ServesSpans self.old doc None result self.new }
    {
        let _turn = self.daemon.read_turn.lock(self.daemon.rt);
        match self
            .daemon
            .shared
            .spans(self.daemon.rt, &mut self.pass, doc)
        {
            Ok(Shown { rev, content }) => Answer::Spans {
                rev,
                spans: SpanList::from(content),
            },
            Err(_) => Answer::Refused(Refusal::Memory),
        }
    }

    /// What changed in a document, in turn with others who read.
    pub(crate) fn changes(&mut self, doc: u32, since: u32) -> Answer
        ensures { ServesChanges self.old doc since result self.new }
    {
        let (rt, shared) = (self.daemon.rt, self.daemon.shared);
        let _turn = self.daemon.read_turn.lock(rt);
        match shared.changes(rt, &mut self.pass, doc, since as usize) {
            Ok(Shown { rev, content }) => match content {
                Some(steps) => Answer::Changes {
                    rev,
                    changes: ChangeList::from(steps),
                },
                None => Answer::Refused(Refusal::Stale),
            },
            Err(_) => Answer::Refused(Refusal::Memory),
        }
    }

    /// Places of a document that last. At most 256 of them are looked up, so no turn is taken: the
    /// lock is held no longer than for an edit of as many characters.
    pub(crate) fn anchors(&mut self, doc: u32, at: &Numbers, side: Neighbour) -> Answer
        ensures { ServesAnchors self.old doc at.now side result self.new }
    {
        let (rt, shared) = (self.daemon.rt, self.daemon.shared);
        match shared.anchors(rt, &mut self.pass, doc, at.as_slice(), side) {
            Ok(Shown { rev, content }) => match content {
                Some(places) => Answer::Anchors {
                    rev,
                    anchors: LastingList::from(places),
                },
                None => Answer::Refused(Refusal::Range),
            },
            Err(_) => Answer::Refused(Refusal::Memory),
        }
    }

    /// Where places of a document stand. Takes no turn, as `anchors` doesn't.
    pub(crate) fn places(&mut self, doc: u32, anchors: &LastingList) -> Answer
        ensures { ServesPlaces self.old doc anchors.now result self.new }
    {
        let (rt, shared) = (self.daemon.rt, self.daemon.shared);
        match shared.places(rt, &mut self.pass, doc, anchors.as_slice()) {
            Ok(Shown { rev, content }) => Answer::Places {
                rev,
                places: PlaceList::from(content),
            },
            Err(_) => Answer::Refused(Refusal::Memory),
        }
    }

    /// Where a text stands in a document. Its text is read in turn with others who read; what looks
    /// through it holds neither the turn nor the lock.
    pub(crate) fn find(&mut self, alloc: Global, doc: u32, sought: &EditText, from: u32) -> Answer
        ensures { ServesFind self.old doc sought.now from result self.new }
    {
        let (rt, shared) = (self.daemon.rt, self.daemon.shared);
        let turn = self.daemon.read_turn.lock(rt);
        let read = shared.text(rt, &mut self.pass, doc);
        drop(turn);
        match read {
            Ok(Shown { rev, content }) => answer_find(alloc, rev, &content, sought, from),
            Err(_) => Answer::Refused(Refusal::Memory),
        }
    }

    /// A document as other programs read it. Its spans are read in turn with others who read, and
    /// written in this form without the turn and the lock.
    pub(crate) fn export(&mut self, alloc: Global, doc: u32, form: Form) -> Answer
        ensures { ServesExport self.old doc form result self.new }
    {
        let (rt, shared) = (self.daemon.rt, self.daemon.shared);
        let turn = self.daemon.read_turn.lock(rt);
        let read = shared.spans(rt, &mut self.pass, doc);
        drop(turn);
        match read {
            Ok(Shown { rev, content }) => answer_export(alloc, rev, &content, form),
            Err(_) => Answer::Refused(Refusal::Memory),
        }
    }

    /// What is counted of each document, in turn with others who read.
    pub(crate) fn documents(&mut self) -> Answer
        ensures { ServesDocuments self.old result self.new }
    {
        let (rt, shared) = (self.daemon.rt, self.daemon.shared);
        let _turn = self.daemon.read_turn.lock(rt);
        match shared.documents(rt, &mut self.pass) {
            Ok(counts) => Answer::Documents {
                documents: DocumentList::from(counts),
            },
            Err(_) => Answer::Refused(Refusal::Memory),
        }
    }

    /// How much there is of what there is a limit to. Takes no turn, since it is known at once.
    pub(crate) fn room(&mut self) -> Answer
        ensures { ServesRoom self.old result self.new }
    {
        Answer::Room {
            room: self
                .daemon
                .shared
                .room_taken(self.daemon.rt, &mut self.pass),
        }
    }

    /// How far the hub is.
    pub(crate) fn status(&mut self) -> Answer
        ensures { ServesStatus self.old result self.new }
    {
        let status = self.daemon.shared.status(self.daemon.rt, &mut self.pass);
        let state = if status.has_failed {
            State::Failed
        } else if status.is_stopping {
            State::Stopping
        } else {
            State::Open
        };
        Answer::Status {
            applied: status.applied,
            settled: status.settled,
            state,
        }
    }

    /// Who is connected.
    pub(crate) fn peers(&mut self, alloc: Global) -> Answer
        ensures { ServesPeers self.old result self.new }
    {
        match self
            .daemon
            .shared
            .peers(self.daemon.rt, alloc, &mut self.pass)
        {
            Ok(peers) => Answer::Peers {
                peers: PeerList::from(peers),
                sessions: self.daemon.shared.sessions(self.daemon.rt),
            },
            Err(_) => Answer::Refused(Refusal::Memory),
        }
    }
}
