//! The two threads of a link.

use crate::hearing::Hearing;
use crate::link_end::LinkEnd;
use crate::link_host::LinkHost;
use crate::over::Over;
use crate::shared_peer::SharedPeer;
use crate::telling::Telling;
use pass_books::BookNames;
use rtrb::{Consumer, Producer, RingBuffer};
use shared_hub::{Checkpoint, Pass};
use std::net::{Shutdown, TcpStream};
use std::rt::Clock;
use std::sync::Wait;
use std::thread;
use std::thread::Threads;

/// How many notes wait at most.
const NOTES: usize = 64;

/// What became of a link that has ended.
#[derive(Clone, Copy, Debug, Drop, PartialEq, Eq)]
pub struct Parted {
    /// Whether one of both ends took operations of the other: a link over which neither does is of
    /// no use.
    pub was_of_use: bool,
    /// Whether an operation found no steps left (10): none can be taken before the file was opened
    /// anew.
    pub is_out_of_steps: bool,
}

impl Parted {
    /// A link that there was no memory for, or that isn't begun.
    const AT_ONCE: Parted = Parted {
        was_of_use: false,
        is_out_of_steps: false,
    };
}

/// Serves a link of this replica to its end: this thread hears with the link's pass, and another
/// one tells with a pass of its own. Tells what became of it, and the log of the greeting and the
/// end. It isn't begun once the hub's links are over.
pub fn serve_link<
    R: Wait + Clock + Threads + Sync,
    J: BookNames + Send + Sync,
    C: Checkpoint + Sync,
>(
    host: &LinkHost<'_, R, J, C>,
    pass: &mut Pass<J>,
    tells: &mut Pass<J>,
    stream: &TcpStream,
) -> Parted {
    if host.shared.are_links_over(host.rt) {
        return Parted::AT_ONCE;
    }
    let Ok(end) = LinkEnd::start(host.alloc, host.own) else {
        host.log.ended(host.rt, host.alloc, Over::NoMemory);
        return Parted::AT_ONCE;
    };
    let Ok(notes) = RingBuffer::new(host.alloc, NOTES) else {
        host.log.ended(host.rt, host.alloc, Over::NoMemory);
        return Parted::AT_ONCE;
    };
    let parted = hear_and_tell(host, &end, (pass, tells), notes, stream);
    Parted {
        was_of_use: parted.was_of_use || end.was_taken(host.rt),
        is_out_of_steps: parted.is_out_of_steps,
    }
}

/// This thread hears, and another one tells, until the link ends. Tells what became of it, as far
/// as this end took operations of the other.
fn hear_and_tell<
    'a,
    R: Wait + Clock + Threads + Sync,
    J: BookNames + Send + Sync,
    C: Checkpoint + Sync,
>(
    host: &'a LinkHost<'a, R, J, C>,
    end: &'a LinkEnd,
    (pass, tells): (&'a mut Pass<J>, &'a mut Pass<J>),
    (producer, consumer): (Producer<u8>, Consumer<u8>),
    stream: &'a TcpStream,
) -> Parted {
    let rt = host.rt;
    let alloc = host.alloc;
    let own = host.own;
    let shared = host.shared;
    let link = pass.number();
    let mut hearing = Hearing::new(&*host, end, pass, producer);
    let telling = Telling::new(&*host, end, link, consumer);
    let peer = SharedPeer::new(rt, shared, tells);
    thread::scope(thread::scope_env(), rt, |scope| {
        let (mut telling, mut peer) = (telling, peer);
        let told = scope.spawn(move || {
            let mut writer = stream;
            telling.run(&mut peer, &mut writer);
            end.end(rt);
            let _ = stream.shutdown(Shutdown::Both);
        });
        if told.is_ok() {
            let mut reader = stream;
            hearing.run(alloc, own, &mut reader);
        }
        end.end_unless_due(rt);
        shared.call(rt, link);
    });
    shared.forget_peer(rt, link);
    host.log.ended(rt, alloc, hearing.over);
    Parted {
        was_of_use: hearing.has_taken,
        is_out_of_steps: hearing.is_out_of_steps,
    }
}
