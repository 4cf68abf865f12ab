//! What a daemon tells of its beginning and end.

use crate::refusing::{Refused, explanation};
use command_syntax::ServeOrder;
use disk_trait::Disk;
use event_journal::{About, Cause, Event, Journal, Reason};
use hub_parts::Parts;
use std::fs::File;
use std::rt::Files;
use std::sync::Wait;
use store_orders::Place;

/// The exit status of a run that a refusal ended.
const REFUSED: u8 = 1;

/// Tells which file is served, and where.
pub fn tell_listening<R: Wait + AllocGlobal, D: Disk>(
    rt: &R,
    order: ServeOrder<'_>,
    parts: &Parts<D>,
    journal: &Journal,
) {
    let room = parts.locked.room().file;
    let event = Event::Listening {
        file: order.file,
        replica: parts.locked.replica(),
        sessions: order.sessions,
        peers: order.peers,
        web: order.web.map(|web| web.port),
        operations: room.operations,
        documents: room.documents,
    };
    journal.tell(rt, &event);
}

/// Tells how a daemon ended, and why if it wasn't stopped. The file is looked at for that.
pub fn tell_end<R: Files<File = File> + Wait + AllocGlobal>(
    rt: &R,
    journal: &Journal,
    end: Result<(), Refused<'_>>,
) {
    match end {
        Ok(()) => {
            let reason = Reason {
                code: 0,
                word: "stopped",
            };
            let cause = None;
            journal.tell(rt, &Event::End { reason, cause });
        }
        Err(refused) => tell_refusal(rt, journal, refused),
    }
}

/// Tells that a daemon was refused what it needs.
fn tell_refusal<R: Files<File = File> + Wait + AllocGlobal>(
    rt: &R,
    journal: &Journal,
    refused: Refused<'_>,
) {
    let (place, sentence) = explanation(rt, refused);
    let word = refused.fault.to_string(rt.alloc());
    let sentence = sentence.to_string(rt.alloc());
    if let (Ok(word), Ok(sentence)) = (word, sentence) {
        let reason = Reason {
            code: refused.fault.number(),
            word: word.as_str(),
        };
        let cause = Some(Cause {
            status: REFUSED,
            sentence: sentence.as_str(),
            about: about(place),
        });
        journal.tell(rt, &Event::End { reason, cause });
    }
}

/// What a refusal is about.
fn about(place: Option<Place<'_>>) -> About<'_> {
    match place {
        Some(Place::File(path)) => About::File(path),
        Some(Place::Port(port)) => About::Port(port),
        None => About::Nothing,
    }
}
