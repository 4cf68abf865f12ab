//! The link that this daemon joins by itself.

use crate::accepting::link;
use crate::hall::Hall;
use crate::host::Host;
use crate::pauses::{Outcome, Pauses};
use event_journal::LinkPlace;
use pass_books::BookNames;
use shared_hub::Checkpoint;
use std::io;
use std::net::{Ipv4Addr, Net, SocketAddr, TcpListener, TcpStream};
use std::rt::Clock;
use std::sync::Wait;
use std::thread::Threads;
use std::time::{Duration, Instant};

/// How long a peer has to take the connection, in milliseconds. One that listens and takes none
/// would hold up the daemon's end.
const PATIENCE: u64 = 1_000;

/// How long a link lasts, in seconds, after which its peer is joined again as soon as at first.
const LASTING: u64 = 60;

/// A peer that was joined, and where it listens on 127.0.0.1.
#[derive(Drop)]
pub struct Joined {
    /// The connection to it; where there is none, it is to be joined anew.
    pub stream: Option<TcpStream>,
    pub port: u16,
}

impl Joined {
    /// Joins the peer that listens on this port of 127.0.0.1. An error where nobody does, or where
    /// the peer doesn't take the connection within a second.
    pub fn to<R: Net<Listener = TcpListener, Stream = TcpStream>>(
        rt: &R,
        port: u16,
    ) -> io::Result<Joined> {
        let stream = Some(connect(rt, port)?);
        Ok(Joined { stream, port })
    }

    /// A peer on this port that is to be joined anew.
    pub fn anew(port: u16) -> Joined {
        Joined { stream: None, port }
    }
}

/// Serves the link to a peer that was joined. If that ends, the peer is joined again after a pause,
/// as `Pauses` says, until the daemon is asked to end or its links are over.
pub(crate) fn keep_joined<R: Host, J: BookNames + Send + Sync, C: Checkpoint + Sync>(
    hall: &Hall<R, J, C>,
    joined: Joined,
) {
    let rt = hall.rt;
    let Joined { stream, port } = joined;
    let mut pauses = Pauses::new();
    let mut stream = match stream {
        Some(stream) => Some(stream),
        None => connect(rt, port).ok(),
    };
    for _ in rt.forever() {
        let outcome = match stream {
            Some(stream) => serve_joined(hall, port, &stream),
            None => Outcome::NotThere,
        };
        let pause = Duration::from_millis(pauses.behind(outcome));
        if hall.shared.are_links_over(rt) || hall.ending.wait_at_most(rt, pause) {
            return;
        }
        stream = connect(rt, port).ok();
    }
}

/// A connection to a port of this machine, where somebody takes it in time.
fn connect<R: Net<Listener = TcpListener, Stream = TcpStream>>(
    rt: &R,
    port: u16,
) -> io::Result<TcpStream> {
    let place = SocketAddr::from((Ipv4Addr::LOCALHOST, port));
    TcpStream::connect_timeout(rt, &place, Duration::from_millis(PATIENCE))
}

/// Serves the link over a stream to its end, if there is a place for it, and tells what became of
/// it.
fn serve_joined<R: Wait + Clock + Threads + Sync, J: BookNames + Send + Sync, C: Checkpoint + Sync>(
    hall: &Hall<R, J, C>,
    port: u16,
    stream: &TcpStream,
) -> Outcome {
    let Some(entry) = hall.own_link.enter(hall.rt, stream) else {
        return Outcome::OfNoUse;
    };
    let start = Instant::now(hall.rt);
    let place = LinkPlace {
        link: entry.number,
        is_joined: true,
        port,
    };
    let lobby = &hall.own_link;
    if link(hall, lobby, entry, place, stream) || has_lasted(hall.rt, start) {
        Outcome::OfUse
    } else {
        Outcome::OfNoUse
    }
}

/// Whether a minute has passed since a time; not where the clock can't be read.
fn has_lasted<R: Clock>(rt: &R, start: io::Result<Instant>) -> bool {
    let Ok(start) = start else {
        return false;
    };
    match start.elapsed(rt) {
        Ok(took) => Duration::from_secs(LASTING) <= took,
        Err(_) => false,
    }
}
