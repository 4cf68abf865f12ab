//! What a link tells the daemon's journal.
use crate::over::Over;
use event_journal::{Event, Journal, LinkPlace, Reason};
use op_ids::ReplicaId;
use std::alloc::Global;
use std::sync::Wait;

/// Where a link tells of itself.
#[derive(Clone, Copy)]
pub struct LinkLog<'a> {
    pub journal: Option<&'a Journal>,
    pub place: LinkPlace,
}

impl<'a> LinkLog<'a> {
    /// Tells that the other end has greeted.
    pub(crate) fn greeted<R: Wait>(&self, rt: &R, replica: ReplicaId) {
        if let Some(journal) = self.journal {
            let place = self.place;
            journal.tell(rt, &Event::LinkUp { place, replica });
        }
    }

    /// Tells that the other end has greeted by this replica's own number.
    pub(crate) fn greeted_by_copy<R: Wait>(&self, rt: &R, replica: ReplicaId) {
        if let Some(journal) = self.journal {
            let place = self.place;
            journal.tell(rt, &Event::Copy { place, replica });
        }
    }

    /// Tells what ended the link.
    pub(crate) fn ended<R: Wait>(&self, rt: &R, alloc: Global, over: Over) {
        if let Some(journal) = self.journal {
            let words = format!(in alloc; "{over}");
            let word = match &words {
                Ok(words) => words.as_str(),
                Err(_) => "",
            };
            let reason = Reason {
                code: over.number(),
                word,
            };
            let place = self.place;
            journal.tell(rt, &Event::LinkDown { place, reason });
        }
    }
}
