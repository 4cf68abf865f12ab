//! Daemons over disks in memory, and sessions to them over sockets, by `Read` and `Write`, for
//! tests.
ghost use Rattle.std.specs.Prelude.{IfSome};
ghost use Rattle.hub_parts.specs.Opening.{IsOpened};

use disk_trait::{Disk, MemDisk};
use group_commit::Store;
use hub_parts::{Parts, open};
use op_ids::ReplicaId;
use serve_threads::{Served, Sockets, serve_on};
use shared_hub::Checkpoint;
use std::alloc::Global;
use std::io::{Read, Write};
use std::net::{Net, TcpListener, TcpStream};
use std::rt::Clock;
use std::sync::Wait;
use std::thread;
use std::thread::Threads;
use std::time::Duration;

/// How often a session asks for something at most, a pause apart.
pub const TURNS: u32 = 10_000;

/// How many seconds a session waits for an answer at most: so a daemon that doesn't serve it fails a test.
const PATIENCE: u64 = 20;

const HOST: &str = "127.0.0.1";

/// The disk of a new replica, whose name ends in this byte.
pub fn new_disk(alloc: Global, last: u8) -> Option<MemDisk> {
    let own = ReplicaId::read([0, 0, 0, 0, 0, 0, 0x40, 0, 0x80, 0, 0, 0, 0, 0, 0, last])?;
    let disk = MemDisk::new(alloc, 1_048_576, 1_024).ok()?;
    let store = Store::init(alloc, disk, own).ok()?;
    Some(store.into_disk())
}

/// The parts of the hub that a disk holds.
fn parts<D: Disk + Drop>(alloc: Global, disk: D) -> Option<Parts<D>>
    ensures { IfSome result (λ it. IsOpened it.locked it.flusher) }
{
    open(alloc, disk).ok()
}

/// How many operations the file of a disk has.
pub fn count_settled<D: Disk + Drop>(alloc: Global, disk: D) -> Option<usize> {
    Some(parts(alloc, disk)?.locked.list().len())
}

/// How a daemon ended.
#[derive(Drop)]
pub struct Ended<D> {
    pub disk: D,
    pub has_failed: bool,
}

/// Serves the file of a disk to the daemon's end.
pub fn serve_disk<
    'a,
    D: Disk + Drop,
    R: Wait + Clock + Threads + Net<Listener = TcpListener, Stream = TcpStream> + Sync,
    C: Checkpoint + Sync,
>(rt: &'a R, alloc: Global, disk: D, sockets: Sockets<'a>, checkpoint: &'a C) -> Option<Ended<D>> {
    let parts = parts(alloc, disk)?;
    match serve_on(rt, alloc, parts, sockets, checkpoint) {
        Ok(served) => {
            let Served {
                disk,
                has_failed,
                ..
            } = served;
            Some(Ended { disk, has_failed })
        }
        Err(_) => None,
    }
}

/// A listener on a port that nobody else has, and that port.
fn listen<R: Net<Listener = TcpListener, Stream = TcpStream>>(
    rt: &R,
) -> Option<(TcpListener, u16)> {
    let listener = TcpListener::bind(rt, (HOST, 0)).ok()?;
    let port = listener.local_addr().ok()?.port();
    Some((listener, port))
}

/// Where a daemon listens that joined nobody: its sockets, the sessions' port and the peers' port.
pub fn sockets<R: Net<Listener = TcpListener, Stream = TcpStream>>(
    rt: &R,
) -> Option<(Sockets<'static>, u16, u16)> {
    let (sessions, at_sessions) = listen(rt)?;
    let (peers, at_peers) = listen(rt)?;
    let sockets = Sockets {
        sessions,
        peers,
        web: None,
        origins: &[],
        joined: None,
        ends_on_failure: false,
        journal: None,
    };
    Some((sockets, at_sessions, at_peers))
}

/// The disk of a new replica, whose name ends in this byte, and where its daemon listens: its
/// sockets, the sessions' port and the peers' port.
pub fn new_daemon<R: Net<Listener = TcpListener, Stream = TcpStream>>(
    rt: &R,
    alloc: Global,
    last: u8,
) -> Option<(MemDisk, Sockets<'static>, u16, u16)> {
    let disk = new_disk(alloc, last)?;
    let (sockets, sessions, peers) = sockets(rt)?;
    Some((disk, sockets, sessions, peers))
}

/// A session over a socket, which is asked line by line.
#[derive(Drop)]
pub struct Talk {
    alloc: Global,
    stream: TcpStream,
}

impl Talk {
    /// A session to the daemon whose sessions' port this is.
    pub fn to<R: Net<Listener = TcpListener, Stream = TcpStream>>(
        rt: &R,
        alloc: Global,
        port: u16,
    ) -> Option<Talk> {
        let stream = TcpStream::connect(rt, (HOST, port)).ok()?;
        stream
            .set_read_timeout(Some(Duration::from_secs(PATIENCE)))
            .ok()?;
        Some(Talk { alloc, stream })
    }

    /// The answers to requests, which are sent at once: a line each, the last of them without its
    /// line feed.
    pub fn ask(&mut self, requests: &str) -> Option<Vec<u8>> {
        let mut lines = Vec::new(self.alloc);
        lines.extend_from_slice(requests.as_bytes()).ok()?;
        lines.push(b'\n').ok()?;
        self.stream.write_all(&lines).ok()?;
        let mut answers = Vec::new(self.alloc);
        for byte in requests.as_bytes() {
            if *byte == b'\n' {
                self.take_line(&mut answers)?;
                answers.push(b'\n').ok()?;
            }
        }
        self.take_line(&mut answers)?;
        Some(answers)
    }

    /// Puts the next line behind these bytes, without its line feed.
    fn take_line(&mut self, line: &mut Vec<u8>) -> Option<()> {
        for _ in 0..u32::MAX {
            match self.next_byte()? {
                b'\n' => return Some(()),
                byte => line.push(byte).ok()?,
            }
        }
        None
    }

    /// Whether just these are the answers to requests.
    pub fn is_answered(&mut self, request: &str, answer: &str) -> bool {
        match self.ask(request) {
            Some(found) => found.as_slice() == answer.as_bytes(),
            None => false,
        }
    }

    /// Asks again and again, with a pause between, until this is the answer. Tells whether it came.
    pub fn comes_to<C: Clock>(&mut self, clock: &C, request: &str, answer: &str) -> bool {
        for _ in 0..TURNS {
            match self.ask(request) {
                Some(found) if found.as_slice() == answer.as_bytes() => return true,
                Some(_) => thread::sleep(clock, Duration::from_millis(1)),
                None => return false,
            }
        }
        false
    }

    fn next_byte(&mut self) -> Option<u8> {
        let mut bytes = [0; 1];
        match self.stream.read(&mut bytes) {
            Ok(1) => Some(bytes[0]),
            _ => None,
        }
    }
}
