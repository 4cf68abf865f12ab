//! Who is connected.

use crate::accepting::{Kind, turn_away};
use crate::entry::Entry;
use pass_books::BookNames;
use shared_hub::Pass;
use std::alloc::{AllocError, Global};
use std::net::{Shutdown, TcpStream};
use std::rt::Clock;
use std::sync::{Condvar, Mutex, Wait};
use std::time::Duration;

/// The passes for connections of one kind, and the sockets of those that are connected.
#[derive(Drop)]
pub(crate) struct Lobby<J: BookNames> {
    inside: Mutex<Inside<J>>,
    left: Condvar,
}

#[derive(Drop)]
struct Inside<J: BookNames> {
    /// The passes that nobody has.
    passes: Vec<Pass<J>>,
    /// Those of the threads that tell over links, for each link one.
    telling: Vec<Pass<J>>,
    /// How many more connections may enter.
    places: usize,
    connected: Vec<Connected>,
    /// How many have entered.
    entered: u64,
    is_closed: bool,
}

/// One that is connected.
#[derive(Drop)]
struct Connected {
    entry: Entry,
    socket: TcpStream,
    /// Whether a thread reads from it.
    is_reading: bool,
}

impl<J: BookNames> Lobby<J> {
    /// Nobody is connected. An error is out of memory (1).
    pub(crate) fn new(alloc: Global, passes: Vec<Pass<J>>) -> Result<Lobby<J>, AllocError> {
        Lobby::of_links(alloc, passes, Vec::new(alloc))
    }

    /// No link is connected; each has a pass, and another one for its thread that tells. An error
    /// is out of memory (1).
    pub(crate) fn of_links(
        alloc: Global,
        passes: Vec<Pass<J>>,
        telling: Vec<Pass<J>>,
    ) -> Result<Lobby<J>, AllocError> {
        let places = passes.len();
        Lobby::with_places(alloc, passes, telling, places)
    }

    /// Nobody is connected, and nobody will get a pass: so many are told that at once.
    pub(crate) fn without_passes(alloc: Global, places: usize) -> Result<Lobby<J>, AllocError> {
        Lobby::with_places(alloc, Vec::new(alloc), Vec::new(alloc), places)
    }

    fn with_places(
        alloc: Global,
        passes: Vec<Pass<J>>,
        telling: Vec<Pass<J>>,
        places: usize,
    ) -> Result<Lobby<J>, AllocError> {
        let connected = Vec::with_capacity(alloc, places)?;
        Ok(Lobby {
            inside: Mutex::new(Inside {
                passes,
                telling,
                places,
                connected,
                entered: 0,
                is_closed: false,
            }),
            left: Condvar::new(),
        })
    }

    /// Lets a connection in, and gives its entry; not where all places are taken.
    pub(crate) fn enter<R: Wait>(&self, rt: &R, socket: &TcpStream) -> Option<Entry> {
        let socket = socket.try_clone().ok()?;
        self.inside.lock(rt).enter(socket)
    }

    /// A pass, for a connection that is in.
    pub(crate) fn take_pass<R: Wait>(&self, rt: &R) -> Option<Pass<J>> {
        self.inside.lock(rt).passes.pop()
    }

    /// A pass for the thread that tells over a link that is in.
    pub(crate) fn take_telling_pass<R: Wait>(&self, rt: &R) -> Option<Pass<J>> {
        self.inside.lock(rt).telling.pop()
    }

    /// Gives the pass of a thread that told back.
    pub(crate) fn give_telling_pass<R: Wait>(&self, rt: &R, pass: Pass<J>) {
        let _ = self.inside.lock(rt).telling.push(pass);
    }

    /// Shuts a connection, and gives its place and its pass back.
    pub(crate) fn leave<R: Wait>(&self, rt: &R, entry: Entry, pass: Option<Pass<J>>) {
        self.inside.lock(rt).leave(entry, pass);
        self.left.notify_all();
    }

    /// Shuts a connection for which there is no thread, a session with the answer 8, and gives its
    /// place back.
    pub(crate) fn turn_away<R: Wait>(&self, rt: &R, entry: Entry, kind: Kind) {
        self.inside.lock(rt).refuse(entry, kind);
        self.leave(rt, entry, None);
    }

    /// Notes that a thread reads from a connection, unless nobody is served any more: answers
    /// whether it may.
    pub(crate) fn begin_reading<R: Wait>(&self, rt: &R, entry: Entry) -> bool {
        let mut inside = self.inside.lock(rt);
        inside.note_reading(entry, true);
        !inside.is_closed
    }

    /// Notes that a thread has read from a connection.
    pub(crate) fn end_reading<R: Wait>(&self, rt: &R, entry: Entry) {
        self.inside.lock(rt).note_reading(entry, false);
    }

    /// Lets nobody in any more, and ends the waits of those who read. Others find out when they
    /// read next: of them something may be unread, which is to be dropped before they are shut.
    pub(crate) fn close<R: Wait>(&self, rt: &R) {
        let mut inside = self.inside.lock(rt);
        inside.is_closed = true;
        inside.end_waits();
    }

    /// Lets nobody in any more, and ends all that is read.
    pub(crate) fn close_at_once<R: Wait>(&self, rt: &R) {
        let mut inside = self.inside.lock(rt);
        inside.is_closed = true;
        inside.shut(Shutdown::Read);
    }

    /// Waits until nobody is connected, at most so long, and then shuts what is left.
    pub(crate) fn clear<R: Wait + Clock>(&self, rt: &R, time: Duration) {
        let guard = self.inside.lock(rt);
        let (guard, _) = self
            .left
            .wait_timeout_while(rt, guard, time, |inside| !inside.connected.is_empty());
        guard.shut(Shutdown::Both);
    }
}

impl<J: BookNames> Inside<J> {
    fn enter(&mut self, socket: TcpStream) -> Option<Entry> {
        if self.is_closed || self.places == 0 {
            return None;
        }
        let entry = Entry {
            number: self.entered,
            has_last: self.places == 1,
        };
        let connected = Connected {
            entry,
            socket,
            is_reading: false,
        };
        self.connected.push(connected).ok()?;
        self.places -= 1;
        self.entered = self.entered.wrapping_add(1);
        Some(entry)
    }

    fn refuse(&self, entry: Entry, kind: Kind) {
        for it in self.connected.iter() {
            if it.entry == entry {
                turn_away(kind, &it.socket);
            }
        }
    }

    fn note_reading(&mut self, entry: Entry, is_reading: bool) {
        for it in self.connected.iter_mut() {
            if it.entry == entry {
                it.is_reading = is_reading;
            }
        }
    }

    fn leave(&mut self, entry: Entry, pass: Option<Pass<J>>) {
        if let Some(pass) = pass {
            let _ = self.passes.push(pass);
        }
        self.places = self.places.saturating_add(1);
        if let Some(at) = self.connected.iter().position(|it| it.entry == entry) {
            let Connected { socket, .. } = self.connected.swap_remove(at);
            let _ = socket.shutdown(Shutdown::Both);
        }
    }

    fn end_waits(&self) {
        for it in self.connected.iter() {
            if it.is_reading {
                let _ = it.socket.shutdown(Shutdown::Read);
            }
        }
    }

    fn shut(&self, how: Shutdown) {
        for it in self.connected.iter() {
            let _ = it.socket.shutdown(how);
        }
    }
}
