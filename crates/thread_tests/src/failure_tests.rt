//! Daemons whose device fails.
use crate::daemon_tests::{FAILED, INSERT_A, INSERT_B, STATUS, STOP, TEXT, add_right};
use crate::test_daemons::{Ended, count_settled, new_daemon, serve_disk};
use disk_trait::FaultDisk;
use shared_hub::NoCheckpoint;
use std::alloc::Global;
use std::net::{Net, TcpListener, TcpStream};
use std::rt::Clock;
use std::sync::{Mutex, Wait};
use std::test::Fail;
use std::thread;
use std::thread::Threads;

/// What a session is told by a daemon whose disk fails in the first sync of a commit.
const OVER_A_FAILED_DISK: [(&str, &str); 5] = [
    (INSERT_A, FAILED),
    (INSERT_B, FAILED),
    (TEXT, "{\"ok\":true,\"rev\":1,\"text\":\"a\"}"),
    (
        STATUS,
        "{\"applied\":1,\"ok\":true,\"settled\":0,\"state\":\"failed\"}",
    ),
    (STOP, FAILED),
];

/// Serves a session over a disk that fails in a commit. Gives how many answers were right, whether
/// the daemon tells the failure, and how many operations are there when the file is opened again.
fn edit_over_a_failing_disk<
    R: Wait + Clock + Threads + Net<Listener = TcpListener, Stream = TcpStream> + Sync,
>(
    rt: &R,
    alloc: Global,
    exchanges: &'static [(&'static str, &'static str)],
    ends_on_failure: bool,
) -> Option<(usize, bool, usize)> {
    // The calls of opening are a sync, a size and a read; the sixth one is the commit's first sync.
    let (disk, mut sockets, port, _) = new_daemon(rt, alloc, 1)?;
    let disk = FaultDisk::new(disk, 6);
    sockets.ends_on_failure = ends_on_failure;
    let right = Mutex::new(0);
    let counted = &right;
    let served = thread::scope(thread::scope_env(), rt, |scope| {
        let _ = scope.spawn(move || add_right(rt, alloc, port, exchanges, counted));
        serve_disk(rt, alloc, disk, sockets, &NoCheckpoint)
    });
    let Ended { disk, has_failed } = served?;
    let settled = count_settled(alloc, disk.into_inner())?;
    Some((right.into_inner(), has_failed, settled))
}

/// What a session is told by a daemon that ends once its disk failed, which ends it unasked.
const BEFORE_THE_END: [(&str, &str); 1] = [(INSERT_A, FAILED)];

/// What a session is told, and whether the daemon ends on failure.
static TOLD: [(&[(&str, &str)], bool); 2] = [(&OVER_A_FAILED_DISK, false), (&BEFORE_THE_END, true)];

#[test]
fn a_failed_device_is_told_and_ends_a_daemon_that_is_to(rt: HostRuntime) -> Result<(), Fail> {
    for (exchanges, ends_on_failure) in &TOLD {
        let told = edit_over_a_failing_disk(&rt, rt.alloc(), exchanges, *ends_on_failure);
        let found = told.ok_or("no daemon")?;
        assert!(rt;
            found == (exchanges.len(), true, 0),
            "{found:?}, ends {ends_on_failure}"
        );
    }
    Ok(())
}
