//! What a desk over a shared hub reads of a document's past, in turn with others who read, or of
//! now.
ghost use Rattle.std.specs.Prelude.{Some};
ghost use Rattle.shared_desk.specs.Serving.{ServesSpans, ServesText, ServesVersions};

use crate::desk::SharedDesk;
use pass_books::BookNames;
use session_lines::{Answer, Refusal, SpanList, VersionList};
use shared_hub::{Checkpoint, Shown};
use std::sync::Wait;

impl<'a, R: Wait, J: BookNames, C: Checkpoint> SharedDesk<'a, R, J, C> {
    /// The text of a document, of now or as it was when it had so many operations.
    pub(crate) fn text(&mut self, doc: u32, at_rev: Option<u32>) -> Answer
        ensures { ServesText self.old doc at_rev result self.new }
    {
        match at_rev {
            None => self.text_now(doc),
            Some(rev) => self.text_at(doc, rev),
        }
    }

    /// The spans of a document likewise.
    pub(crate) fn spans(&mut self, doc: u32, at_rev: Option<u32>) -> Answer
        ensures { ServesSpans self.old doc at_rev result self.new }
    {
        match at_rev {
            None => self.spans_now(doc),
            Some(rev) => self.spans_at(doc, rev),
        }
    }

    /// The text of a document as it was when it had so many operations. The hub's lock is held as
    /// long as the opening of so much of the document takes.
    fn text_at(&mut self, doc: u32, rev: u32) -> Answer
        ensures { ServesText self.old doc (Some rev) result self.new }
    {
        let (rt, shared) = (self.daemon.rt, self.daemon.shared);
        let _turn = self.daemon.read_turn.lock(rt);
        match shared.text_at(rt, &mut self.pass, doc, rev as usize) {
            Ok(Some(text)) => Answer::Text {
                rev: rev as u64,
                text,
            },
            Ok(None) => Answer::Refused(Refusal::Stale),
            Err(_) => Answer::Refused(Refusal::Memory),
        }
    }

    /// The spans of a document as it was when it had so many operations, as `text_at` does.
    fn spans_at(&mut self, doc: u32, rev: u32) -> Answer
        ensures { ServesSpans self.old doc (Some rev) result self.new }
    {
        let (rt, shared) = (self.daemon.rt, self.daemon.shared);
        let _turn = self.daemon.read_turn.lock(rt);
        match shared.spans_at(rt, &mut self.pass, doc, rev as usize) {
            Ok(Some(spans)) => Answer::Spans {
                rev: rev as u64,
                spans: SpanList::from(spans),
            },
            Ok(None) => Answer::Refused(Refusal::Stale),
            Err(_) => Answer::Refused(Refusal::Memory),
        }
    }

    /// The versions of a document.
    pub(crate) fn versions(&mut self, doc: u32, every: u32) -> Answer
        ensures { ServesVersions self.old doc every result self.new }
    {
        let (rt, shared) = (self.daemon.rt, self.daemon.shared);
        let _turn = self.daemon.read_turn.lock(rt);
        match shared.versions(rt, &mut self.pass, doc, every) {
            Ok(Shown { rev, content }) => Answer::Versions {
                rev,
                versions: VersionList::from(content),
            },
            Err(_) => Answer::Refused(Refusal::Memory),
        }
    }
}
