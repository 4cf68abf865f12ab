//! A session's thread that comes by a WebSocket.

use crate::caller::Caller;
use crate::entry::Entry;
use crate::hall::Hall;
use crate::last_words::send_last_words;
use crate::lobby::Lobby;
use crate::session_thread::serve_session;
use crate::timed::Timed;
use crate::web_ends::{WebAnswers, WebLines};
use crate::web_sides::{ReadSide, WriteSide};
use event_journal::{Entrance, Event, Reason};
use pass_books::BookNames;
use shared_hub::Checkpoint;
use std::cell::{Cell, RefCell};
use std::net::TcpStream;
use std::rt::Clock;
use std::sync::Wait;
use std::time::Duration;
use web_guests::{Guest, Origin, Refusal, admit_from};
use web_lines::Outlet;

/// How long the head of its request may take, and one write of the answer to it, in seconds.
const HEAD: u64 = 2;

/// Serves a session whose connection is in this lobby, once it asked for a WebSocket and may come,
/// to its end, and gives its place back.
pub(crate) fn serve_web<R: Wait + Clock, J: BookNames, C: Checkpoint>(
    hall: &Hall<R, J, C>,
    lobby: &Lobby<J>,
    entry: Entry,
    stream: &TcpStream,
) {
    let timed = Timed::new(hall.rt, stream);
    let origin = match let_in(hall, stream, &timed) {
        Ok(Some(origin)) => Some(origin.as_str()),
        Ok(None) => None,
        Err(refusal) => {
            part(hall, stream, refusal);
            lobby.leave(hall.rt, entry, None);
            return;
        }
    };
    let outlet = RefCell::new(Outlet::new(hall.alloc));
    let heard = ReadSide {
        timed: &timed,
        stream,
        outlet: &outlet,
    };
    let said = WriteSide {
        stream,
        outlet: &outlet,
    };
    let close = Cell::new(None);
    let caller = Caller {
        stream,
        door: Entrance::Web { origin },
        timed: &timed,
        reader: WebLines::new(hall.alloc, heard, &close),
        writer: WebAnswers::new(hall.alloc, said, &close),
    };
    serve_session(hall, lobby, entry, caller);
}

/// Parts from a connection that may not come in, and tells of it.
fn part<R: Wait, J: BookNames, C: Checkpoint>(
    hall: &Hall<R, J, C>,
    stream: &TcpStream,
    refusal: Refusal,
) {
    if is_answered(refusal) {
        send_last_words(stream);
    }
    tell_sent_away(hall, refusal);
}

/// Whether one that is sent away so was told anything.
fn is_answered(refusal: Refusal) -> bool {
    !matches!(
        refusal,
        Refusal::TooSlow | Refusal::Failed | Refusal::OutOfMemory
    )
}

/// Reads what a connection asks for, and answers that. Gives the origin of the web page from which
/// it comes, if it comes from one.
fn let_in<'a, R: Wait + Clock, J: BookNames, C: Checkpoint>(
    hall: &Hall<'a, R, J, C>,
    stream: &TcpStream,
    timed: &Timed<'_, R>,
) -> Result<Option<&'a Origin>, Refusal> {
    let Ok(place) = stream.local_addr() else {
        return Err(Refusal::Failed);
    };
    timed.begin(Duration::from_secs(HEAD));
    let origins = hall.manner.origins;
    let admitted = admit_from(hall.alloc, timed, place.port(), origins, None);
    timed.end();
    match admitted {
        Ok(Guest { origin, .. }) => Ok(origin),
        Err(refusal) => Err(refusal),
    }
}

/// Tells that a connection may not come in, and why.
fn tell_sent_away<R: Wait, J: BookNames, C: Checkpoint>(hall: &Hall<R, J, C>, refusal: Refusal) {
    if let Ok(word) = refusal.to_string(hall.alloc) {
        let reason = Reason {
            code: 0,
            word: word.as_str(),
        };
        let door = Entrance::Web { origin: None };
        hall.tell(&Event::SessionRefused { door, reason });
    }
}
