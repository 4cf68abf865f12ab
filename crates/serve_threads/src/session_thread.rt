//! A session's thread.

use crate::caller::{Answers, Caller};
use crate::entry::Entry;
use crate::hall::Hall;
use crate::last_words::send_last_words;
use crate::lobby::Lobby;
use crate::timed::Timed;
use crate::until_closed::UntilClosed;
use crate::watch_thread::watch;
use event_journal::{Entrance, Event, Reason};
use first_bytes::{FirstLine, FirstLook, FirstWatch};
use fixed_numbers::refusals::{BUSY, MEMORY, STREAM};
use pass_books::BookNames;
use session_threads::{Session, SessionFault};
use shared_desk::SharedDesk;
use shared_hub::{Checkpoint, Pass};
use std::alloc::Global;
use std::io::{Read, Write};
use std::net::TcpStream;
use std::rt::Clock;
use std::sync::Wait;
use std::time::Duration;

/// How long a session that has the last place has for its first line, in milliseconds.
const FIRST_LINE: u64 = 1_000;

/// Serves a session whose connection is in this lobby, to its end, and gives its place back. One
/// for which there is no memory or no pass is answered 8, and so is one that has the last place and
/// asks first for anything but the status or a stop.
pub(crate) fn serve_session<
    R: Wait + Clock,
    J: BookNames,
    C: Checkpoint,
    S: Read + Drop,
    W: Answers + Drop,
>(hall: &Hall<R, J, C>, lobby: &Lobby<J>, entry: Entry, caller: Caller<'_, R, S, W>) {
    let Caller {
        stream,
        door,
        timed,
        mut reader,
        mut writer,
    } = caller;
    let mut first = FirstLine::new();
    let found = take_pass(hall, lobby, entry, timed, &mut reader, &mut first);
    let pass = match found {
        Some(pass) => {
            let rest = UntilClosed::new(hall.rt, lobby, entry, reader);
            let caller = Caller {
                stream,
                door,
                timed,
                reader: first.chain(rest),
                writer,
            };
            Some(serve(hall, entry.number, caller, pass))
        }
        None => {
            refuse(hall, stream, door, &mut writer);
            None
        }
    };
    lobby.leave(hall.rt, entry, pass);
}

/// A pass for a session, if there is one, unless it has the last place and may not.
fn take_pass<R: Wait + Clock, J: BookNames, C: Checkpoint, S: Read>(
    hall: &Hall<R, J, C>,
    lobby: &Lobby<J>,
    entry: Entry,
    timed: &Timed<'_, R>,
    reader: &mut S,
    first: &mut FirstLine,
) -> Option<Pass<J>> {
    if entry.has_last && !may_have_last(hall.alloc, timed, reader, first) {
        return None;
    }
    lobby.take_pass(hall.rt)
}

/// Answers a session 8 that isn't served, so that the answer arrives, and tells of it.
fn refuse<R: Wait, J: BookNames, C: Checkpoint, W: Answers>(
    hall: &Hall<R, J, C>,
    stream: &TcpStream,
    door: Entrance<'_>,
    writer: &mut W,
) {
    writer.refuse();
    send_last_words(stream);
    let reason = reason(BUSY, "busy");
    hall.tell(&Event::SessionRefused { door, reason });
}

/// What ended a session.
fn reason(code: u8, word: &'static str) -> Reason<'static> {
    Reason { code, word }
}

/// Why a session ended that was served so.
fn reason_of(served: &Result<(), SessionFault>) -> Reason<'static> {
    match served {
        Ok(()) => reason(0, "closed"),
        Err(SessionFault::Memory) => reason(MEMORY, "memory"),
        Err(SessionFault::Stream(_)) => reason(STREAM, "stream"),
    }
}

/// Reads the first line of a session, for which it has a second, and answers whether it may have
/// the last place: it asks for the status or a stop. Else whoever is to see what the daemon does,
/// or to end it, would be kept out. The time goes on for one that may not, so that it can't keep
/// the place by not reading why.
fn may_have_last<R: Clock, S: Read>(
    alloc: Global,
    timed: &Timed<'_, R>,
    reader: &mut S,
    first: &mut FirstLine,
) -> bool {
    timed.begin(Duration::from_millis(FIRST_LINE));
    let _ = first.wait_for(reader);
    let may = first.asks_for_status_or_stop(alloc);
    if may {
        timed.end();
    }
    may
}

/// Serves a session with this pass, and gives that back.
fn serve<R: Wait + Clock, J: BookNames, C: Checkpoint, S: Read + Drop, W: Answers + Drop>(
    hall: &Hall<R, J, C>,
    number: u64,
    caller: Caller<'_, R, S, W>,
    pass: Pass<J>,
) -> Pass<J> {
    let (session, door) = (number, caller.door);
    hall.tell(&Event::SessionUp { session, door });
    // Each answer goes out at once: its sender waits for nothing behind it.
    let _ = caller.stream.set_nodelay(true);
    let mut desk = SharedDesk::new(hall.daemon(), pass);
    let Caller {
        stream,
        reader,
        writer,
        ..
    } = caller;
    let reader = FirstWatch::new(hall.alloc, FirstLook::new(reader));
    let mut session = Session::new(reader, writer);
    let served = serve_requests(hall, stream, &mut session, &mut desk);
    let is_ending = is_ended_here(&session, &served) || hall.ending.is_asked(hall.rt);
    hall.tell(&Event::SessionDown {
        session: number,
        reason: reason_of(&served),
        close: session.writer.close_code(is_ending),
    });
    take_leave(stream, &mut session, &served, is_ending);
    desk.into_pass()
}

/// Serves the requests of a session; or tells it of changes, if its first line asks for that.
fn serve_requests<R: Wait + Clock, J: BookNames, C: Checkpoint, S: Read, W: Write>(
    hall: &Hall<R, J, C>,
    stream: &TcpStream,
    session: &mut Session<FirstWatch<S>, W>,
    desk: &mut SharedDesk<'_, R, J, C>,
) -> Result<(), SessionFault> {
    session.serve(hall.alloc, desk)?;
    let Some(request) = session.reader.take_watch() else {
        return Ok(());
    };
    let rest = session.reader.rest();
    watch(hall, stream, request, rest, &mut session.writer)
}

/// Whether this end ends a session that was served so, also if the daemon goes on.
fn is_ended_here<S: Read, W: Write>(
    session: &Session<FirstWatch<S>, W>,
    served: &Result<(), SessionFault>,
) -> bool {
    match served {
        Ok(()) => session.reader.is_watch(),
        Err(SessionFault::Memory) => true,
        Err(SessionFault::Stream(_)) => false,
    }
}

/// Takes leave of a session that was served so: it is answered 8 where there is no memory for it,
/// and its last words arrive where this end ends it.
fn take_leave<S: Read, W: Answers>(
    stream: &TcpStream,
    session: &mut Session<FirstWatch<S>, W>,
    served: &Result<(), SessionFault>,
    is_ending: bool,
) {
    if let Err(SessionFault::Memory) = served {
        session.writer.refuse();
    }
    session.writer.part(stream, is_ending);
}
