//! A session that is told of changes, over its connection.

use crate::hall::Hall;
use crate::still::{Still, patience};
use crate::watch_several::watch_several;
use first_bytes::Watch;
use pass_books::BookNames;
use session_lines::Watching;
use session_threads::SessionFault;
use shared_hub::{Checkpoint, Shared, WatchBook, Watched};
use std::io::{Read, Write};
use std::net::TcpStream;
use std::rt::Clock;
use std::sync::Wait;
use watch_lines::{LineRoom, Next, Source, serve_watch};

/// Tells a session of changes, until its connection ends or something more comes over it, the
/// daemon ends or nothing more is settled; before that it is told the newest numbers. What it was
/// told comes to it, though it said more than was read.
pub(crate) fn watch<R: Wait + Clock, J: BookNames, C: Checkpoint, S: Read, W: Write>(
    hall: &Hall<R, J, C>,
    stream: &TcpStream,
    watch: Watch,
    reader: &mut S,
    writer: &mut W,
) -> Result<(), SessionFault> {
    let Watch {
        watching,
        is_followed,
    } = watch;
    match watching {
        Watching::One(doc) => watch_one(hall, stream, (doc, is_followed), reader, writer),
        Watching::These(docs) => {
            let book = hall
                .shared
                .watch_these(hall.rt, hall.alloc, docs.as_slice())?;
            watch_several(hall, stream, (book, is_followed), reader, writer)
        }
        Watching::All => {
            let book = WatchBook::of_all(hall.alloc);
            watch_several(hall, stream, (book, is_followed), reader, writer)
        }
    }
}

/// Tells a session of a document's changes; whether it is looked only once comes with the document.
fn watch_one<R: Wait + Clock, J: BookNames, C: Checkpoint, S: Read, W: Write>(
    hall: &Hall<R, J, C>,
    stream: &TcpStream,
    asked: (u32, bool),
    reader: &mut S,
    writer: &mut W,
) -> Result<(), SessionFault> {
    let (doc, is_last) = asked;
    let mut room = LineRoom::new(hall.alloc)?;
    let mut changes = Changes {
        rt: hall.rt,
        shared: &hall.shared,
        still: Still {
            rt: hall.rt,
            ending: &hall.ending,
            stream,
            reader,
        },
        doc,
        is_last,
        is_over: false,
    };
    match serve_watch(hall.alloc, &mut room, writer, &mut changes) {
        Ok(()) => Ok(()),
        Err(error) => Err(SessionFault::Stream(error)),
    }
}

/// The numbers of a document's settled operations, for one session.
#[derive(Drop)]
struct Changes<'a, R: Wait + Clock, J: BookNames, S: Read> {
    rt: &'a R,
    shared: &'a Shared<J>,
    still: Still<'a, R, S>,
    doc: u32,
    /// Whether it is looked only once more.
    is_last: bool,
    /// Whether that was done.
    is_over: bool,
}

impl<'a, R: Wait + Clock, J: BookNames, S: Read> Source for Changes<'a, R, J, S> {
    ghost use Rattle.std.specs.Prelude.{⊤};

    ghost gives = { λ _ _ _. ⊤ };

    /// What is settled by now, or else within the patience. The last look comes after the session
    /// or the daemon was found to end: what was settled before is seen by it.
    fn next(&mut self, told: Option<u64>) -> Next {
        if self.is_over {
            return Next::Closed;
        }
        self.is_over = self.is_last || self.still.has_to_end();
        let time = patience(self.is_over);
        match self.shared.watch(self.rt, self.doc, told, time) {
            Watched::Rev(rev) => Next::Rev(rev),
            Watched::Nothing => Next::Quiet,
            Watched::Failed => Next::Failed,
        }
    }
}
