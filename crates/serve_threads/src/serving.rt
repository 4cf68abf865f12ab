//! The daemon.
ghost use Rattle.std.specs.Prelude.{◌≡◌, IfOk, IfErr};
ghost use Rattle.hub_parts.specs.Opening.{IsOpened};
ghost use Rattle.shared_hub.specs.Going.{Goes, ComesBack, FitsSome};

use crate::accepting::{Kind, accept};
use crate::doors::Doors;
use crate::hall::{Base, Hall};
use crate::host::Host;
use crate::rejoining::{Joined, keep_joined};
use crate::sockets::Sockets;
use disk_trait::Disk;
use event_journal::{Event, Reason};
use fixed_numbers::refusals::FAILED;
use hub_parts::{Flusher, Parts};
use pass_books::BookNames;
use shared_desk::End;
use shared_hub::{Checkpoint, Committer, Named, Opened, flush};
use std::alloc::{AllocError, Global};
use std::marker::Brand;
use std::net::{Net, TcpListener, TcpStream};
use std::rt::Clock;
use std::sync::Wait;
use std::thread;
use std::time::Duration;

/// How long sessions have for their last words, in milliseconds: longer than what they still send
/// is dropped.
const SESSION_WORDS: u64 = 3_000;

/// How long links have for theirs.
const LINK_WORDS: u64 = 1_000;

/// How the daemon ended.
#[derive(Drop)]
pub struct Served<'a, D: Disk> {
    pub disk: D,
    /// Whether the device failed, or a commit couldn't begin: then the file may lack what was
    /// applied and not answered.
    pub has_failed: bool,
    /// Whether there was memory to begin with, that of its threads included.
    pub has_begun: bool,
    /// Where no steps were left (10) and nobody asked for a stop: the sockets, which go on
    /// listening. The file is to be opened anew and served over them.
    pub renewal: Option<Sockets<'a>>,
}

/// Serves sessions and links over a hub that was just opened, until a session asked for a stop, or
/// an edit or a merge found no steps left (10), and what was applied is settled; then hands back
/// the disk, and in the second case the sockets. Where the sockets say so, it ends when the device
/// failed, too: those who wait are answered 9 before.
///
/// At most 32 sessions and 8 links are served at once, one of which is the joined peer's, where
/// there is one: a further session is answered 8 and closed, a further link is closed. A session
/// whose first bytes are a request line of HTTP is closed before any line of it is served. At the
/// end sessions have three seconds for their last words, and links have one.
pub fn serve_all<'a, D: Disk + Drop, R: Host, C: Checkpoint + Sync>(
    rt: &'a R,
    alloc: Global,
    parts: Parts<D>,
    sockets: Sockets<'a>,
    checkpoint: &'a C,
) -> Served<'a, D>
    requires { IsOpened parts.locked parts.flusher }
    // What a crash leaves of the disk begins with what it left before.
    ensures { ComesBack D.DiskFacts parts.flusher result.disk }
{
    match Opened::new(alloc) {
        Ok(opened) => {
            let base = Base {
                rt,
                alloc,
                checkpoint,
            };
            serve_named::<Brand, D, R, C>(base, opened, parts, sockets)
        }
        Err(AllocError) => {
            parts.locked.kept();
            without_memory(parts.flusher)
        }
    }
}

/// How the daemon ends that didn't begin.
fn without_memory<'a, D: Disk>(flusher: Flusher<D>) -> Served<'a, D>
    requires { FitsSome flusher }
    ensures { ComesBack D.DiskFacts flusher result.disk }
{
    flusher.kept();
    Served {
        has_failed: false,
        has_begun: false,
        disk: flusher.into_disk(),
        renewal: None,
    }
}

/// Serves with the books that have these names.
fn serve_named<'a, J: BookNames + Send + Sync, D: Disk + Drop, R: Host, C: Checkpoint + Sync>(
    base: Base<'a, R, C>,
    opened: Opened,
    parts: Parts<D>,
    sockets: Sockets<'a>,
) -> Served<'a, D>
    requires names { opened ≡ J.names }
    requires fresh { IsOpened parts.locked parts.flusher }
    ensures { ComesBack D.DiskFacts parts.flusher result.disk }
{
    parts.locked.kept();
    let manner = sockets.manner();
    let Begun {
        hall,
        doors,
        joined,
        committer,
    } = match begin::<R, J, D, C>(base, opened, parts, sockets) {
        Ok(begun) => begun,
        Err(flusher) => return without_memory(flusher),
    };
    let (has_begun, committer) = run(&hall, committer, &doors, joined);
    let renewal = if hall.is_renewed() {
        Some(Sockets::anew(doors, manner))
    } else {
        None
    };
    let mut guarded = hall.into_guarded();
    let mut committer = committer;
    guarded.audit_committer(&mut committer);
    let locked = guarded.locked();
    Served {
        has_failed: committer.has_failed() || locked.settled() < locked.list().len(),
        has_begun,
        disk: committer.into_flusher().into_disk(),
        renewal,
    }
}

/// What a turn begins with: what its threads share, its doors, the peer that it joined, and what
/// commits.
#[derive(Drop)]
struct Begun<'a, R: Wait, J: BookNames, D: Disk, C: Checkpoint> {
    hall: Hall<'a, R, J, C>,
    doors: Doors,
    joined: Option<Joined>,
    committer: Committer<J, D>,
}

/// Begins a turn. An error is out of memory (1), or that the system has no more descriptors, and
/// gives the flusher back.
fn begin<'a, R: Wait, J: BookNames, D: Disk, C: Checkpoint>(
    base: Base<'a, R, C>,
    opened: Opened,
    parts: Parts<D>,
    sockets: Sockets<'a>,
) -> Result<Begun<'a, R, J, D, C>, Flusher<D>>
    requires names { opened ≡ J.names }
    requires fresh { IsOpened parts.locked parts.flusher }
    ensures begun { IfOk result (λ it. it.committer.flusher ≡ parts.flusher) }
    ensures refused { IfErr result (λ flusher. flusher ≡ parts.flusher) }
{
    let own = parts.locked.replica();
    let Named {
        shared,
        committer,
        passes,
    } = opened.share::<J, D>(base.alloc, parts)?;
    let Ok(hall) = Hall::new(base, own, shared, passes, sockets.manner()) else {
        return Err(committer.into_flusher());
    };
    let Sockets {
        sessions,
        peers,
        web,
        joined,
        ..
    } = sockets;
    let Ok(doors) = Doors::new(sessions, peers, web) else {
        return Err(committer.into_flusher());
    };
    Ok(Begun {
        hall,
        doors,
        joined,
        committer,
    })
}

/// Starts the threads, waits until one asks to end, and ends them all. First comes the one that
/// ends the others: without it nobody is let in. This thread is the flusher's. Answers whether all
/// could be started, where not, they end at once; and gives back what commits.
fn run<J: BookNames + Send + Sync, D: Disk + Drop, R: Host, C: Checkpoint + Sync>(
    hall: &Hall<R, J, C>,
    committer: Committer<J, D>,
    doors: &Doors,
    joined: Option<Joined>,
) -> (bool, Committer<J, D>)
    ensures { Goes D.DiskFacts committer.flusher result.1.flusher }
{
    thread::scope(
        thread::scope_env(),
        hall.rt,
        move |scope| -> (bool, Committer<J, D>)
            ensures { Goes D.DiskFacts committer.flusher result.1.flusher }
        {
            let mut committer = committer;
            let ending = scope.spawn(move || end_when_asked(hall, doors));
            if ending.is_err() {
                end_at_once(hall, doors);
            }
            let sessions = scope.spawn(move || accept(hall, Kind::Session, &doors.sessions));
            let peers = scope.spawn(move || accept(hall, Kind::Link, &doors.peers));
            let web = match &doors.web {
                Some(door) => scope.spawn(move || accept(hall, Kind::Web, door)).is_ok(),
                None => true,
            };
            let joining = match joined {
                Some(joined) => scope.spawn(move || keep_joined(hall, joined)).is_ok(),
                None => true,
            };
            let has_begun = ending.is_ok() && sessions.is_ok() && peers.is_ok() && web && joining;
            if !has_begun {
                hall.ending.ask(hall.rt, End::Stop);
            }
            flush_to_the_end(hall, &mut committer);
            (has_begun, committer)
        },
    )
}

/// Commits what the threads make, to their end or until the device fails. Then the daemon is asked
/// to end, where it is to end for that: those who wait for a settlement were told before.
fn flush_to_the_end<D: Disk, R: Wait + Clock, J: BookNames, C: Checkpoint>(
    hall: &Hall<R, J, C>,
    committer: &mut Committer<J, D>,
)
    ensures { Goes D.DiskFacts committer.old.flusher committer.new.flusher }
{
    flush(hall.rt, &hall.shared, committer, hall.checkpoint);
    if committer.has_failed() {
        tell_failure(hall);
    }
}

/// Tells that a commit failed, and asks the daemon to end where it is to end for that.
fn tell_failure<R: Wait, J: BookNames, C: Checkpoint>(hall: &Hall<R, J, C>) {
    let reason = Reason {
        code: FAILED,
        word: "failed",
    };
    hall.tell(&Event::CommitFailed { reason });
    if hall.manner.ends_on_failure {
        hall.ending.ask(hall.rt, End::Failure);
    }
}

/// Asks the daemon to end, and ends all threads.
fn end_at_once<
    R: Wait + Clock + Net<Listener = TcpListener, Stream = TcpStream>,
    J: BookNames,
    C: Checkpoint,
>(hall: &Hall<R, J, C>, doors: &Doors) {
    hall.ending.ask(hall.rt, End::Stop);
    end_all(hall, doors);
}

/// Waits until the daemon is asked to end, and ends all threads.
fn end_when_asked<
    R: Wait + Clock + Net<Listener = TcpListener, Stream = TcpStream>,
    J: BookNames,
    C: Checkpoint,
>(hall: &Hall<R, J, C>, doors: &Doors) {
    hall.ending.wait(hall.rt);
    end_all(hall, doors);
}

/// Ends all threads: nobody is let in any more, and those that are connected have a little time for
/// their last words. For a renewal the sockets listen to the end, so that whoever comes meanwhile
/// waits for the next turn.
fn end_all<
    R: Wait + Clock + Net<Listener = TcpListener, Stream = TcpStream>,
    J: BookNames,
    C: Checkpoint,
>(hall: &Hall<R, J, C>, doors: &Doors) {
    let rt = hall.rt;
    hall.sessions.close(rt);
    hall.refused.close(rt);
    hall.links.close_at_once(rt);
    hall.own_link.close_at_once(rt);
    if hall.ending.asked(rt) != Some(End::Renewal) {
        doors.shut();
    }
    hall.sessions
        .clear(rt, Duration::from_millis(SESSION_WORDS));
    hall.refused.clear(rt, Duration::from_millis(LINK_WORDS));
    hall.shared.close(rt);
    hall.links.clear(rt, Duration::from_millis(LINK_WORDS));
    hall.own_link.clear(rt, Duration::from_millis(LINK_WORDS));
    doors.leave(rt, &hall.ending);
}
