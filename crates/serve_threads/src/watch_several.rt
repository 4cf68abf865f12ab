//! A session that is told of changes of several documents, over its connection.

use crate::hall::Hall;
use crate::still::{Still, patience};
use pass_books::BookNames;
use session_threads::SessionFault;
use shared_hub::{Checkpoint, Shared, WatchBook, WatchedOf};
use std::io::{Read, Write};
use std::net::TcpStream;
use std::rt::Clock;
use std::sync::Wait;
use watch_lines::{LineRoom, NextOf, SeveralSource, serve_several};

/// Tells a session of the changes of the documents in its book, as `watch` does; whether the end is
/// to come at once stands beside the book.
pub(crate) fn watch_several<R: Wait + Clock, J: BookNames, C: Checkpoint, S: Read, W: Write>(
    hall: &Hall<R, J, C>,
    stream: &TcpStream,
    asked: (WatchBook, bool),
    reader: &mut S,
    writer: &mut W,
) -> Result<(), SessionFault> {
    let (book, is_last) = asked;
    let mut room = LineRoom::new(hall.alloc)?;
    let mut changes = SeveralChanges {
        rt: hall.rt,
        shared: &hall.shared,
        still: Still {
            rt: hall.rt,
            ending: &hall.ending,
            stream,
            reader,
        },
        book,
        is_last,
        end: None,
        is_without_memory: false,
    };
    let served = serve_several(hall.alloc, &mut room, writer, &mut changes);
    if changes.is_without_memory {
        return Err(SessionFault::Memory);
    }
    match served {
        Ok(()) => Ok(()),
        Err(error) => Err(SessionFault::Stream(error)),
    }
}

/// The numbers of settled operations of several documents, for one session.
#[derive(Drop)]
struct SeveralChanges<'a, R: Wait + Clock, J: BookNames, S: Read> {
    rt: &'a R,
    shared: &'a Shared<J>,
    still: Still<'a, R, S>,
    book: WatchBook,
    /// Whether the end is to come at once.
    is_last: bool,
    /// How many operations were settled when the end was found: all of them are told.
    end: Option<usize>,
    /// Whether there was no memory for the book.
    is_without_memory: bool,
}

impl<'a, R: Wait + Clock, J: BookNames, S: Read> SeveralSource for SeveralChanges<'a, R, J, S> {
    ghost use Rattle.std.specs.Prelude.{⊤};

    ghost gives = { λ _ _ _. ⊤ };

    /// What is settled by now, or else within the patience. After the session or the daemon was
    /// found to end, what was settled before is given.
    fn next(&mut self) -> NextOf {
        if self.is_over() {
            return NextOf::Closed;
        }
        let time = patience(self.end.is_some());
        match self.shared.watch_several(self.rt, &mut self.book, time) {
            Ok(WatchedOf::Rev { doc, rev }) => NextOf::Rev { doc, rev },
            Ok(WatchedOf::Nothing) => NextOf::Quiet,
            Ok(WatchedOf::Failed) => NextOf::Failed,
            Err(_) => {
                self.is_without_memory = true;
                NextOf::Closed
            }
        }
    }
}

impl<'a, R: Wait + Clock, J: BookNames, S: Read> SeveralChanges<'a, R, J, S> {
    /// Whether all is told that was settled when the end was found. Looks for an end, if none was
    /// found before.
    fn is_over(&mut self) -> bool {
        if let Some(end) = self.end {
            return self.book.has_told(end);
        }
        if self.is_last || self.still.has_to_end() {
            self.end = Some(self.shared.settled(self.rt));
        }
        false
    }
}
