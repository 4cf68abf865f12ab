//! Daemons that are met over sockets: what only threads can show.
use crate::asking_checkpoint::AskingCheckpoint;
use crate::test_daemons::{Ended, TURNS, Talk, new_daemon, serve_disk, sockets};
use crate::waiting_disk::{Meeting, WaitingDisk};
use disk_trait::MemDisk;
use serve_threads::Joined;
use shared_hub::NoCheckpoint;
use std::alloc::Global;
use std::net::{Net, TcpListener, TcpStream};
use std::rt::Clock;
use std::sync::{Mutex, Wait};
use std::test::Fail;
use std::thread;
use std::thread::Threads;
use std::time::Duration;

pub(crate) const INSERT_A: &str = "{\"op\":\"insert\",\"doc\":1,\"at\":0,\"text\":\"a\"}";

pub(crate) const INSERT_B: &str = "{\"op\":\"insert\",\"doc\":1,\"at\":0,\"text\":\"b\"}";

pub(crate) const TEXT: &str = "{\"op\":\"text\",\"doc\":1}";

const SPANS: &str = "{\"op\":\"spans\",\"doc\":1}";

pub(crate) const STATUS: &str = "{\"op\":\"status\"}";

pub(crate) const STOP: &str = "{\"op\":\"stop\"}";

pub(crate) const REV_1: &str = "{\"ok\":true,\"rev\":1}";

const REV_2: &str = "{\"ok\":true,\"rev\":2}";

pub(crate) const STOPPED: &str = "{\"ok\":true}";

/// A stop and an edit behind it, sent at once.
const STOP_AND_INSERT: &str =
    "{\"op\":\"stop\"}\n{\"op\":\"insert\",\"doc\":1,\"at\":0,\"text\":\"a\"}";

const STOPPED_AND_STOPPING: &str =
    "{\"ok\":true}\n{\"code\":12,\"error\":\"stopping\",\"ok\":false}";

pub(crate) const FAILED: &str = "{\"code\":9,\"error\":\"failed\",\"ok\":false}";

const A_APPLIED: &str = "{\"applied\":1,\"ok\":true,\"settled\":0,\"state\":\"open\"}";

const BOTH_APPLIED: &str = "{\"applied\":2,\"ok\":true,\"settled\":0,\"state\":\"open\"}";

const SPANS_BA: &str = "{\"ok\":true,\"rev\":2,\"spans\":[{\"text\":\"ba\"}]}";

const TEXT_BA: &str = "{\"ok\":true,\"rev\":2,\"text\":\"ba\"}";

/// What is answered to the session that edits while the other one's commit is under way.
const OF_THE_SECOND: [(&str, &str); 13] = [
    (INSERT_B, REV_2),
    (TEXT, TEXT_BA),
    (SPANS, SPANS_BA),
    (
        "{\"op\":\"changes\",\"doc\":1,\"since\":1}",
        "{\"changes\":[{\"insert\":\"b\"}],\"ok\":true,\"rev\":2}",
    ),
    (
        "{\"op\":\"anchors\",\"doc\":1,\"at\":[0],\"side\":\"previous\"}",
        "{\"anchors\":[\"start\"],\"ok\":true,\"rev\":2}",
    ),
    (
        "{\"op\":\"places\",\"doc\":1,\"anchors\":[\"start\",\"end\"]}",
        "{\"ok\":true,\"places\":[0,2],\"rev\":2}",
    ),
    (
        "{\"op\":\"find\",\"doc\":1,\"text\":\"a\"}",
        "{\"ok\":true,\"places\":[1],\"rev\":2}",
    ),
    (
        "{\"op\":\"export\",\"doc\":1,\"to\":\"text\"}",
        "{\"ok\":true,\"rev\":2,\"text\":\"ba\"}",
    ),
    (PAST_BA, PAST_OF_BA),
    ("{\"op\":\"documents\"}", DOCUMENT_BA),
    (TWO_AT_ONCE, "{\"ok\":true,\"rev\":4}"),
    (SECOND_REFUSED, SECOND_IS_REFUSED),
    (STOP, STOPPED),
];

/// The one document, which the daemon's own replica wrote.
const DOCUMENT_BA: &str =
    "{\"documents\":[{\"chars\":2,\"doc\":1,\"ops\":2,\"writers\":[\"00000000-0000-4000-8000-000000000001\"]}],\"ok\":true}";

const PAST_BA: &str =
    "{\"op\":\"text\",\"doc\":1,\"at_rev\":1}\n{\"op\":\"spans\",\"doc\":1,\"at_rev\":3}\n{\"op\":\"versions\",\"doc\":1,\"every\":2}";

const PAST_OF_BA: &str =
    "{\"ok\":true,\"rev\":1,\"text\":\"a\"}\n{\"code\":6,\"error\":\"stale\",\"ok\":false}\n{\"ok\":true,\"rev\":2,\"versions\":[{\"ops\":2,\"replica\":\"00000000-0000-4000-8000-000000000001\",\"rev\":2}]}";

/// A character comes and goes in one line, at a place that lasts.
const TWO_AT_ONCE: &str =
    "{\"op\":\"edits\",\"doc\":1,\"edits\":[{\"op\":\"insert\",\"at\":\"end\",\"text\":\"c\"},{\"op\":\"delete\",\"at\":2,\"count\":1}]}";

/// The second edit of a line can't be made, so none is.
const SECOND_REFUSED: &str =
    "{\"op\":\"edits\",\"doc\":1,\"edits\":[{\"op\":\"insert\",\"at\":0,\"text\":\"d\"},{\"op\":\"delete\",\"at\":3,\"count\":1}]}";

const SECOND_IS_REFUSED: &str = "{\"at\":1,\"code\":5,\"error\":\"range\",\"ok\":false}";

/// The room of a file without operations.
const EMPTY_ROOM: &str =
    "{\"bytes\":0,\"bytes_limit\":1073741824,\"documents\":0,\"documents_limit\":1024,\"ok\":true,\"operations\":0,\"operations_limit\":16777216,\"replicas\":0,\"replicas_limit\":16,\"steps\":0,\"steps_limit\":1048576}";

/// The room, an edit, and then a stop with an edit behind it, which is refused.
const INSERT_AND_STOP: [(&str, &str); 3] = [
    ("{\"op\":\"room\"}", EMPTY_ROOM),
    (INSERT_A, REV_1),
    (STOP_AND_INSERT, STOPPED_AND_STOPPING),
];

/// Asks a session these requests. Gives how many have the answer beside them.
fn count_right<R: Net<Listener = TcpListener, Stream = TcpStream>>(
    rt: &R,
    alloc: Global,
    port: u16,
    exchanges: &[(&str, &str)],
) -> usize {
    let Some(mut talk) = Talk::to(rt, alloc, port) else {
        return 0;
    };
    let mut right: usize = 0;
    for (request, answer) in exchanges.iter() {
        if talk.is_answered(request, answer) {
            right = right.saturating_add(1);
        }
    }
    right
}

/// Asks a session these requests, and adds how many have the answer beside them.
pub(crate) fn add_right<R: Wait + Net<Listener = TcpListener, Stream = TcpStream>>(
    rt: &R,
    alloc: Global,
    port: u16,
    exchanges: &[(&str, &str)],
    right: &Mutex<usize>,
) {
    let count = count_right(rt, alloc, port, exchanges);
    let mut right = right.lock(rt);
    *right = count.saturating_add(*right);
}

/// One session inserts "a"; while the commit of that is held up, another one inserts "b". Gives how
/// many answers were right, and whether both edits were applied while the first commit was under
/// way.
fn edit_in_a_commit<
    R: Wait + Clock + Threads + Net<Listener = TcpListener, Stream = TcpStream> + Sync,
>(rt: &R, alloc: Global) -> Option<(usize, bool)> {
    let (disk, sockets, port, _) = new_daemon(rt, alloc, 1)?;
    let checkpoint = AskingCheckpoint::new(rt, alloc, port, STATUS, BOTH_APPLIED);
    let right = Mutex::new(0);
    let (held, counted) = (&checkpoint, &right);
    thread::scope(thread::scope_env(), rt, |scope| {
        let _ = scope.spawn(move || add_right(rt, alloc, port, &[(INSERT_A, REV_1)], counted));
        let _ = scope.spawn(move || {
            held.wait();
            add_right(rt, alloc, port, &OF_THE_SECOND, counted);
        });
        let _served = serve_disk(rt, alloc, disk, sockets, held);
    });
    Some((right.into_inner(), checkpoint.is_told()))
}

#[test]
fn an_edit_is_taken_while_a_commit_is_under_way(rt: HostRuntime) -> Result<(), Fail> {
    let (right, is_taken) = edit_in_a_commit(&rt, rt.alloc()).ok_or("no daemon")?;
    assert!(rt; is_taken);
    assert_eq!(rt; right, 1 + OF_THE_SECOND.len());
    Ok(())
}

/// One session inserts "a"; while the body of a root slot is written, another one asks for the
/// status. Gives how many answers were right, and whether the disk met that session.
fn ask_in_a_device_call<
    R: Wait + Clock + Threads + Net<Listener = TcpListener, Stream = TcpStream> + Sync,
>(rt: &R, alloc: Global) -> Option<(usize, bool)> {
    let (disk, sockets, port, _) = new_daemon(rt, alloc, 1)?;
    let meeting = Meeting::new();
    let disk = WaitingDisk {
        rt,
        disk,
        meeting: &meeting,
    };
    let right = Mutex::new(0);
    let (met, counted) = (&meeting, &right);
    thread::scope(thread::scope_env(), rt, |scope| {
        let _ = scope.spawn(move || add_right(rt, alloc, port, &INSERT_AND_STOP, counted));
        let _ = scope.spawn(move || {
            if met.is_writing(rt) && count_right(rt, alloc, port, &[(STATUS, A_APPLIED)]) == 1 {
                met.serve(rt);
            }
        });
        let _served = serve_disk(rt, alloc, disk, sockets, &NoCheckpoint);
    });
    Some((right.into_inner(), meeting.has_met(rt)))
}

#[test]
fn a_session_is_served_within_a_device_call(rt: HostRuntime) -> Result<(), Fail> {
    let (right, has_met) = ask_in_a_device_call(&rt, rt.alloc()).ok_or("no daemon")?;
    assert!(rt; has_met);
    assert_eq!(rt; right, INSERT_AND_STOP.len());
    Ok(())
}

/// Serves a new replica, whose name ends in this byte, to a session that makes this edit and stops
/// it. Gives the disk, where both were answered well.
fn edited<R: Wait + Clock + Threads + Net<Listener = TcpListener, Stream = TcpStream> + Sync>(
    rt: &R,
    alloc: Global,
    last: u8,
    insert: &'static str,
) -> Option<MemDisk> {
    let (disk, sockets, port, _) = new_daemon(rt, alloc, last)?;
    let right = Mutex::new(0);
    let counted = &right;
    let served = thread::scope(thread::scope_env(), rt, |scope| {
        let _ = scope.spawn(move || {
            add_right(
                rt,
                alloc,
                port,
                &[(insert, REV_1), (STOP, STOPPED)],
                counted,
            )
        });
        serve_disk(rt, alloc, disk, sockets, &NoCheckpoint)
    });
    match served {
        Some(Ended { disk, .. }) if right.into_inner() == 2 => Some(disk),
        _ => None,
    }
}

/// Waits until a daemon shows both characters and the other one does, and stops it. Tells whether
/// all came.
fn shows_both<R: Wait + Clock + Net<Listener = TcpListener, Stream = TcpStream>>(
    rt: &R,
    alloc: Global,
    port: u16,
    shown: &Mutex<u32>,
) -> bool {
    let Some(mut talk) = Talk::to(rt, alloc, port) else {
        return false;
    };
    let comes = talk.comes_to(rt, TEXT, TEXT_BA);
    if comes {
        let mut shown = shown.lock(rt);
        *shown = shown.saturating_add(1);
    }
    for _ in 0..TURNS {
        if *shown.lock(rt) >= 2 {
            break;
        }
        thread::sleep(rt, Duration::from_millis(1));
    }
    talk.is_answered(STOP, STOPPED) && comes
}

/// Links two daemons, each of which has one character. Gives how many of them show both.
fn link_two<R: Wait + Clock + Threads + Net<Listener = TcpListener, Stream = TcpStream> + Sync>(
    rt: &R,
    alloc: Global,
) -> Option<u32> {
    let second = edited(rt, alloc, 2, INSERT_B)?;
    let (first_sockets, first_port, peers) = sockets(rt)?;
    let (mut second_sockets, second_port, _) = sockets(rt)?;
    second_sockets.joined = Joined::to(rt, peers).ok();
    let shown = Mutex::new(0u32);
    let right = Mutex::new(0u32);
    let (shown, counted) = (&shown, &right);
    thread::scope(thread::scope_env(), rt, |scope| {
        for port in [first_port, second_port] {
            let _ = scope.spawn(move || {
                if shows_both(rt, alloc, port, shown) {
                    let mut counted = counted.lock(rt);
                    *counted = counted.saturating_add(1);
                }
            });
        }
        let _ = scope.spawn(move || {
            if let Some(first) = edited(rt, alloc, 1, INSERT_A) {
                let _served = serve_disk(rt, alloc, first, first_sockets, &NoCheckpoint);
            }
        });
        let _served = serve_disk(rt, alloc, second, second_sockets, &NoCheckpoint);
    });
    Some(right.into_inner())
}

#[test]
fn two_daemons_bring_each_other_up_to_date(rt: HostRuntime) -> Result<(), Fail> {
    assert_eq!(rt; link_two(&rt, rt.alloc()).ok_or("no daemon")?, 2);
    Ok(())
}
