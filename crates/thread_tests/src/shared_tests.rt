//! A hub that threads share.
ghost use Rattle.std.specs.Prelude.{◌≡◌};

use crate::test_hubs::{insert, share, take_pass};
use disk_trait::MemDisk;
use pass_books::BookNames;
use shared_hub::{Committer, Named, NoCheckpoint, Opened, Pass, Shared, flush};
use std::alloc::Global;
use std::marker::Brand;
use std::mem;
use std::rt::Clock;
use std::sync::{Mutex, Wait};
use std::test::Fail;
use std::thread::{self, Threads};

/// How many edits each of the four threads makes.
const EDITS: u64 = 50;

/// Makes the edits, each of which is acknowledged before the next one. Gives how many entries the
/// pass has then.
fn make_edits<R: Wait, J: BookNames>(
    rt: &R,
    alloc: Global,
    shared: &Shared<J>,
    pass: &mut Pass<J>,
) -> Option<u64> {
    for _ in 0..EDITS {
        let edit = insert(alloc, 1)?;
        let ticket = shared.edit(rt, pass, &edit).ok()?;
        if !shared.acknowledge(rt, pass, ticket) {
            return None;
        }
    }
    Some(pass.made())
}

/// Four threads edit beside the flusher's. Gives how many entries their passes have in all, and how
/// many operations the list has then, where the two parts fit.
fn four_edit<J: BookNames + Send + Sync, R: Wait + Clock + Threads + Sync>(
    rt: &R,
    alloc: Global,
    opened: Opened,
) -> Option<(u64, usize)>
    requires { opened ≡ J.names }
{
    let mut hub = share::<J>(alloc, opened)?;
    let made = all_edit_beside(rt, alloc, &mut hub);
    Some((made, count_where_parts_fit(Box::into_inner(hub))?))
}

/// How many operations the list of a hub has, where its two parts fit.
fn count_where_parts_fit<J: BookNames>(hub: Named<J, MemDisk>) -> Option<usize> {
    let Named {
        shared,
        committer,
        ..
    } = hub;
    let locked = shared.end().into_locked();
    if locked.fits(&committer.into_flusher()) {
        Some(locked.list().len())
    } else {
        None
    }
}

/// Four threads edit with the passes of a hub. Gives how many entries these have in all.
fn all_edit_beside<J: BookNames + Send + Sync, R: Wait + Clock + Threads + Sync>(
    rt: &R,
    alloc: Global,
    hub: &mut Named<J, MemDisk>,
) -> u64 {
    let passes = mem::replace(&mut hub.passes, Vec::new(alloc));
    edit_beside(rt, alloc, &hub.shared, passes, &mut hub.committer)
}

/// Four threads edit while this one flushes. Gives how many entries their passes have in all.
fn edit_beside<J: BookNames + Send + Sync, R: Wait + Clock + Threads + Sync>(
    rt: &R,
    alloc: Global,
    shared: &Shared<J>,
    passes: Vec<Pass<J>>,
    committer: &mut Committer<J, MemDisk>,
) -> u64 {
    let made = Mutex::new(0);
    let counted = &made;
    thread::scope(thread::scope_env(), rt, |scope| {
        let editing = scope.spawn(move || {
            all_edit(rt, alloc, shared, counted, passes);
            shared.close(rt);
        });
        if editing.is_ok() {
            flush(rt, shared, committer, &NoCheckpoint);
        }
    });
    made.into_inner()
}

/// Four threads edit, each with a pass of its own.
fn all_edit<J: BookNames + Send + Sync, R: Wait + Threads + Sync>(
    rt: &R,
    alloc: Global,
    shared: &Shared<J>,
    made: &Mutex<u64>,
    passes: Vec<Pass<J>>,
) {
    thread::scope(thread::scope_env(), rt, |scope| {
        for pass in passes.into_iter().take(4) {
            let mut pass = pass;
            let _ = scope.spawn(move || {
                let entries = make_edits(rt, alloc, shared, &mut pass).unwrap_or(0);
                let mut made = made.lock(rt);
                *made = made.saturating_add(entries);
            });
        }
    });
}

#[test]
fn four_threads_edit(rt: HostRuntime) -> Result<(), Fail> {
    let opened = Opened::new(rt.alloc())?;
    let (made, applied) = four_edit::<Brand, _>(&rt, rt.alloc(), opened).ok_or("four")?;
    assert!(rt; made == 4 * EDITS && applied == 200);
    Ok(())
}

/// Whether an edit behind the flusher's end is acknowledged, and whether a stop finds all settled.
fn waits_behind_the_end<J: BookNames, R: Wait>(
    rt: &R,
    alloc: Global,
    shared: &Shared<J>,
    pass: &mut Pass<J>,
) -> Option<(bool, bool)> {
    let edit = insert(alloc, 1)?;
    let ticket = shared.edit(rt, pass, &edit).ok()?;
    let is_acknowledged = shared.acknowledge(rt, pass, ticket);
    Some((is_acknowledged, shared.stop(rt)))
}

/// Ends the flusher of a hub, and then edits and stops.
fn end_and_edit<J: BookNames, R: Wait + Clock>(
    rt: &R,
    alloc: Global,
    hub: &mut Named<J, MemDisk>,
) -> Option<(bool, bool)> {
    hub.shared.close(rt);
    flush(rt, &hub.shared, &mut hub.committer, &NoCheckpoint);
    let mut pass = take_pass(hub)?;
    waits_behind_the_end(rt, alloc, &hub.shared, &mut pass)
}

/// The same of a new hub.
fn edit_behind_the_end<J: BookNames, R: Wait + Clock>(
    rt: &R,
    alloc: Global,
    opened: Opened,
) -> Option<(bool, bool)>
    requires { opened ≡ J.names }
{
    let mut hub = share::<J>(alloc, opened)?;
    end_and_edit(rt, alloc, &mut hub)
}

#[test]
fn nobody_waits_behind_the_flushers_end(rt: HostRuntime) -> Result<(), Fail> {
    let opened = Opened::new(rt.alloc())?;
    let (is_acknowledged, is_settled) = edit_behind_the_end::<Brand, _>(
        &rt,
        rt.alloc(),
        opened,
    ).ok_or("behind")?;
    assert!(rt; !is_acknowledged && !is_settled);
    Ok(())
}
