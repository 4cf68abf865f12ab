//! The threads that let connections in.

use crate::busy::{say_busy, say_busy_to_web};
use crate::caller::Caller;
use crate::door::Door;
use crate::entry::Entry;
use crate::hall::Hall;
use crate::lobby::Lobby;
use crate::session_thread::serve_session;
use crate::timed::Timed;
use crate::web_thread::serve_web;
use event_journal::{Entrance, Event, LinkPlace, Reason};
use fixed_numbers::refusals::BUSY;
use link_threads::serve_link;
use pass_books::BookNames;
use shared_desk::End;
use shared_hub::Checkpoint;
use std::net::TcpStream;
use std::rt::Clock;
use std::sync::Wait;
use std::thread;
use std::thread::Threads;
use std::time::Duration;

/// The pause behind a connection that couldn't be accepted, in milliseconds.
const PAUSE: u64 = 10;

/// How long a write to a peer waits for the peer to take something, in seconds. A write that was
/// taken in part is made again with the rest, so a link ends behind three waits at the most.
const PATIENCE: u64 = 10;

/// What a connection is for.
#[derive(Clone, Copy, Debug, PartialEq, Eq)]
pub(crate) enum Kind {
    Session,
    /// A session that comes by a WebSocket.
    Web,
    Link,
}

/// Lets connections of one kind in, each of which gets a thread, until the daemon is asked to end;
/// then waits for their ends. One that finds no place or no thread is closed, a session with the
/// answer 8, a WebSocket with the status 503.
pub(crate) fn accept<
    R: Wait + Clock + Threads + Sync,
    J: BookNames + Send + Sync,
    C: Checkpoint + Sync,
>(hall: &Hall<R, J, C>, kind: Kind, door: &Door) {
    let rt = hall.rt;
    thread::scope(thread::scope_env(), rt, |scope| {
        for stream in door.listener().incoming() {
            if hall.ending.is_asked(rt) {
                break;
            }
            let Ok(stream) = stream else {
                thread::sleep(rt, Duration::from_millis(PAUSE));
                continue;
            };
            let Some((lobby, entry)) = hall.enter(kind, &stream) else {
                turn_away(kind, &stream);
                tell_refused(hall, kind, &stream);
                continue;
            };
            let served = scope.spawn(move || serve(hall, lobby, kind, entry, &stream));
            if served.is_err() {
                lobby.turn_away(rt, entry, kind);
                hall.tell(&refused_at(kind, 0));
            }
        }
        door.note_left(rt);
    });
}

/// Tells a connection that there is no place or no thread for it; a peer is told nothing.
pub(crate) fn turn_away(kind: Kind, stream: &TcpStream) {
    match kind {
        Kind::Session => say_busy(stream),
        Kind::Web => say_busy_to_web(stream),
        Kind::Link => {}
    }
}

/// Tells that a connection was turned away, unless the daemon ends.
fn tell_refused<R: Wait, J: BookNames, C: Checkpoint>(
    hall: &Hall<R, J, C>,
    kind: Kind,
    stream: &TcpStream,
) {
    if !hall.ending.is_asked(hall.rt) {
        hall.tell(&refused_at(kind, port_of(stream)));
    }
}

/// A connection of this kind, and from this port, for which there is no place or no thread.
fn refused_at(kind: Kind, port: u16) -> Event<'static> {
    let reason = Reason {
        code: BUSY,
        word: "busy",
    };
    match kind {
        Kind::Session => Event::SessionRefused {
            door: Entrance::Sessions,
            reason,
        },
        Kind::Web => Event::SessionRefused {
            door: Entrance::Web { origin: None },
            reason,
        },
        Kind::Link => Event::LinkRefused { port, reason },
    }
}

/// The port of the other end of a connection; 0 where that can't be told.
pub(crate) fn port_of(stream: &TcpStream) -> u16 {
    match stream.peer_addr() {
        Ok(place) => place.port(),
        Err(_) => 0,
    }
}

/// Serves a connection that is in this lobby, to its end, and gives its place back.
fn serve<R: Wait + Clock + Threads + Sync, J: BookNames + Send + Sync, C: Checkpoint + Sync>(
    hall: &Hall<R, J, C>,
    lobby: &Lobby<J>,
    kind: Kind,
    entry: Entry,
    stream: &TcpStream,
) {
    match kind {
        Kind::Session => {
            let timed = Timed::new(hall.rt, stream);
            let caller = Caller {
                stream,
                door: Entrance::Sessions,
                timed: &timed,
                reader: &timed,
                writer: stream,
            };
            serve_session(hall, lobby, entry, caller);
        }
        Kind::Web => serve_web(hall, lobby, entry, stream),
        Kind::Link => {
            let place = LinkPlace {
                link: entry.number,
                is_joined: false,
                port: port_of(stream),
            };
            let _is_of_use = link(hall, lobby, entry, place, stream);
        }
    }
}

/// Serves a link whose connection is in this lobby, to its end, and gives its place back. Answers
/// whether the other end said more than HELLO and BYE. One whose operation finds no steps left (10)
/// asks the daemon to open its file anew.
pub(crate) fn link<
    R: Wait + Clock + Threads + Sync,
    J: BookNames + Send + Sync,
    C: Checkpoint + Sync,
>(
    hall: &Hall<R, J, C>,
    lobby: &Lobby<J>,
    entry: Entry,
    place: LinkPlace,
    stream: &TcpStream,
) -> bool {
    let _ = stream.set_nodelay(true);
    let _ = stream.set_write_timeout(Some(Duration::from_secs(PATIENCE)));
    let Some(mut tells) = lobby.take_telling_pass(hall.rt) else {
        lobby.leave(hall.rt, entry, None);
        return false;
    };
    let Some(mut pass) = lobby.take_pass(hall.rt) else {
        lobby.give_telling_pass(hall.rt, tells);
        lobby.leave(hall.rt, entry, None);
        return false;
    };
    let parted = serve_link(&hall.link_host(place), &mut pass, &mut tells, stream);
    if parted.is_out_of_steps {
        hall.ending.ask(hall.rt, End::Renewal);
    }
    lobby.give_telling_pass(hall.rt, tells);
    lobby.leave(hall.rt, entry, Some(pass));
    parted.was_of_use
}
