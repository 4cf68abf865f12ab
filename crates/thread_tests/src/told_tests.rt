//! What is told while a commit is under way, and what once it is settled, by `Read` and `Write`.
use crate::daemon_tests::{REV_1, STOP, STOPPED, add_right};
use crate::test_daemons::{new_daemon, serve_disk};
use crate::waiting_disk::{Meeting, WaitingDisk};
use shared_hub::NoCheckpoint;
use std::alloc::Global;
use std::io::{ErrorKind, Read, Write};
use std::net::{Net, TcpListener, TcpStream};
use std::rt::Clock;
use std::sync::{Mutex, Wait};
use std::test::Fail;
use std::thread;
use std::thread::Threads;
use std::time::Duration;

const HOST: &str = "127.0.0.1";

/// How many milliseconds somebody has to hear nothing.
const SILENCE: u64 = 300;

/// How many seconds somebody waits for what is to be heard at most.
const PATIENCE: u64 = 20;

const INSERT: &str =
    "{\"op\":\"insert\",\"doc\":1,\"at\":0,\"text\":\"a\",\"token\":\"00000000-0000-4000-8000-0000000000d2\"}";

/// What somebody says, what he is answered before the first edit is settled, and what then.
struct Told {
    said: &'static [u8],
    before: &'static [u8],
    after: &'static [u8],
}

/// One who watches the document.
static WATCHER: Told = Told {
    said: b"{\"op\":\"watch\",\"doc\":1}\n",
    before: b"{\"ok\":true,\"rev\":0}\n",
    after: b"{\"ok\":true,\"rev\":1}\n",
};

/// One who sends the edit again.
static SENDER: Told = Told {
    said: b"{\"op\":\"insert\",\"doc\":1,\"at\":0,\"text\":\"a\",\"token\":\"00000000-0000-4000-8000-0000000000d2\"}\n",
    before: b"",
    after: b"{\"ok\":true,\"rev\":1}\n",
};

/// A peer that says HELLO and that it has nothing. It hears HELLO and an empty HAVE; after the
/// settlement the operation, and that there is one.
static PEER: Told = Told {
    said: b"\0\0\0\x13\x01\0\x03\0\0\0\0\0\0\x40\0\x80\0\0\0\0\0\0\x09\0\0\0\x02\x02\0",
    before: b"\0\0\0\x13\x01\0\x03\0\0\0\0\0\0\x40\0\x80\0\0\0\0\0\0\x01\0\0\0\x02\x02\0",
    after: b"\0\0\0\x1a\x02\x01\0\0\0\0\0\0\x40\0\x80\0\0\0\0\0\0\x01\0\0\0\0\0\0\0\x01\0\0\0\x3a\x03\0\x01\0\0\0\x33\x11\0\0\0\x01\0\0\0\0\0\0\0\x01\0\0\0\0\0\0\x40\0\x80\0\0\0\0\0\0\x01\0\0\0\0\0\0\0\x40\0\x80\0\0\0\0\0\0\xd2\0\0\0\0\x61",
};

/// Somebody who is connected to the daemon.
#[derive(Drop)]
struct Guest {
    told: &'static Told,
    stream: TcpStream,
}

impl Guest {
    /// Says to the port what this one says.
    fn at<R: Net<Listener = TcpListener, Stream = TcpStream>>(
        rt: &R,
        port: u16,
        told: &'static Told,
    ) -> Option<Guest> {
        let mut stream = TcpStream::connect(rt, (HOST, port)).ok()?;
        stream.write_all(told.said).ok()?;
        Some(Guest { told, stream })
    }

    /// Whether it hears what it has to before the settlement, and then nothing.
    fn is_told_before(&mut self) -> bool {
        self.hears(self.told.before) && self.is_silent()
    }

    /// Whether it hears what it has to once that is there.
    fn is_told_after(&mut self) -> bool {
        self.hears(self.told.after)
    }

    fn hears(&mut self, bytes: &[u8]) -> bool {
        let time = Duration::from_secs(PATIENCE);
        if self.stream.set_read_timeout(Some(time)).is_err() {
            return false;
        }
        for byte in bytes.iter() {
            let mut heard = [0; 1];
            match self.stream.read(&mut heard) {
                Ok(1) if heard[0] == *byte => {}
                _ => return false,
            }
        }
        true
    }

    fn is_silent(&mut self) -> bool {
        let time = Duration::from_millis(SILENCE);
        if self.stream.set_read_timeout(Some(time)).is_err() {
            return false;
        }
        let mut heard = [0; 1];
        match self.stream.read(&mut heard) {
            Err(error) => matches!(error.kind(), ErrorKind::WouldBlock | ErrorKind::TimedOut),
            Ok(_) => false,
        }
    }
}

/// How many of these are told what they have to be: each before the settlement, which `meeting`
/// holds up, and after it.
fn count_told<R: Wait>(rt: &R, guests: &mut [Guest], meeting: &Meeting) -> usize {
    let mut told: usize = 0;
    for guest in guests.iter_mut() {
        if guest.is_told_before() {
            told = told.saturating_add(1);
        }
    }
    meeting.serve(rt);
    for guest in guests.iter_mut() {
        if guest.is_told_after() {
            told = told.saturating_add(1);
        }
    }
    told
}

/// The same of a watcher, a session that sends the edit again, and a peer.
fn told_to_all<R: Wait + Net<Listener = TcpListener, Stream = TcpStream>>(
    rt: &R,
    (sessions, peers): (u16, u16),
    meeting: &Meeting,
) -> Option<usize> {
    let mut guests = [
        Guest::at(rt, sessions, &WATCHER)?,
        Guest::at(rt, sessions, &SENDER)?,
        Guest::at(rt, peers, &PEER)?,
    ];
    Some(count_told(rt, &mut guests, meeting))
}

/// One session makes an edit; while the body of a root slot is written, others listen. Gives how
/// often they were told what they had to be, and how many answers were right.
fn listen_in_a_commit<
    R: Wait + Clock + Threads + Net<Listener = TcpListener, Stream = TcpStream> + Sync,
>(rt: &R, alloc: Global) -> Option<(usize, usize)> {
    let (disk, sockets, port, peers) = new_daemon(rt, alloc, 1)?;
    let meeting = Meeting::new();
    let disk = WaitingDisk {
        rt,
        disk,
        meeting: &meeting,
    };
    let (right, told) = (Mutex::new(0), Mutex::new(0));
    let (met, counted, listened) = (&meeting, &right, &told);
    thread::scope(thread::scope_env(), rt, |scope| {
        let _ = scope.spawn(move || add_right(rt, alloc, port, &[(INSERT, REV_1)], counted));
        let _ = scope.spawn(move || {
            if met.is_writing(rt) {
                let found = told_to_all(rt, (port, peers), met);
                *listened.lock(rt) = found.unwrap_or(0);
            }
            add_right(rt, alloc, port, &[(STOP, STOPPED)], counted);
        });
        let _served = serve_disk(rt, alloc, disk, sockets, &NoCheckpoint);
    });
    Some((told.into_inner(), right.into_inner()))
}

#[test]
fn nothing_is_told_before_it_is_settled(rt: HostRuntime) -> Result<(), Fail> {
    let found = listen_in_a_commit(&rt, rt.alloc()).ok_or("no daemon")?;
    assert_eq!(rt; found, (6, 2));
    Ok(())
}
