//! How a document of a hub that threads share is watched.
ghost use Rattle.std.specs.Prelude.{◌≡◌};

use crate::test_hubs::{insert, share, take_pass};
use disk_trait::MemDisk;
use pass_books::BookNames;
use shared_hub::{Committer, Named, NoCheckpoint, Opened, Pass, Shared, Watched, flush};
use std::alloc::Global;
use std::marker::Brand;
use std::rt::Clock;
use std::sync::{Mutex, Wait};
use std::test::Fail;
use std::thread::{self, Threads};
use std::time::Duration;

/// More seconds than any commit takes.
const LONG: u64 = 60;

/// Edits a document, and waits for the settlement.
pub fn settle_edit<J: BookNames, R: Wait>(
    rt: &R,
    alloc: Global,
    shared: &Shared<J>,
    pass: &mut Pass<J>,
    doc: u32,
) -> Option<()> {
    let edit = insert(alloc, doc)?;
    let ticket = shared.edit(rt, pass, &edit).ok()?;
    if !shared.acknowledge(rt, pass, ticket) {
        return None;
    }
    Some(())
}

/// What document 1 has come to for one who waits until its first edit is settled, and then, with
/// that seen, at once: as it is, and beside a settled edit of document 2.
fn watched<J: BookNames, R: Wait + Clock>(
    rt: &R,
    alloc: Global,
    shared: &Shared<J>,
    pass: &mut Pass<J>,
) -> Option<[Watched; 3]> {
    let first = shared.watch(rt, 1, Some(0), Duration::from_secs(LONG));
    let same = shared.watch(rt, 1, Some(1), Duration::ZERO);
    settle_edit(rt, alloc, shared, pass, 2)?;
    Some([first, same, shared.watch(rt, 1, Some(1), Duration::ZERO)])
}

/// Watches while this thread flushes, and gives what was watched.
fn watch_beside<J: BookNames + Send + Sync, R: Wait + Clock + Threads + Sync>(
    rt: &R,
    alloc: Global,
    shared: &Shared<J>,
    pass: Pass<J>,
    committer: &mut Committer<J, MemDisk>,
) -> Option<[Watched; 3]> {
    let found = Mutex::new(None);
    let seen = &found;
    thread::scope(thread::scope_env(), rt, |scope| {
        let watching = scope.spawn(move || {
            let mut pass = pass;
            *seen.lock(rt) = watched(rt, alloc, shared, &mut pass);
            shared.close(rt);
        });
        if watching.is_ok() {
            flush(rt, shared, committer, &NoCheckpoint);
        }
    });
    found.into_inner()
}

/// What document 1 has come to beside an edit that isn't settled, for one who hasn't seen it and for
/// one who has.
fn unsettled<J: BookNames, R: Wait + Clock>(
    rt: &R,
    alloc: Global,
    shared: &Shared<J>,
    pass: &mut Pass<J>,
) -> Option<[Watched; 2]> {
    let edit = insert(alloc, 1)?;
    shared.edit(rt, pass, &edit).ok()?;
    Some([
        shared.watch(rt, 1, None, Duration::from_secs(LONG)),
        shared.watch(rt, 1, Some(0), Duration::ZERO),
    ])
}

/// What it has come to after the flusher's end, for one who has seen all, and for one who hasn't.
fn after_the_end<J: BookNames, R: Wait + Clock>(rt: &R, shared: &Shared<J>) -> [Watched; 2] {
    [
        shared.watch(rt, 1, Some(1), Duration::from_secs(LONG)),
        shared.watch(rt, 1, Some(0), Duration::from_secs(LONG)),
    ]
}

/// All of this in turn.
fn watched_in_turn<J: BookNames + Send + Sync, R: Wait + Clock + Threads + Sync>(
    rt: &R,
    alloc: Global,
    hub: &mut Named<J, MemDisk>,
) -> Option<([Watched; 2], [Watched; 3], [Watched; 2])> {
    let mut pass = take_pass(hub)?;
    let before = unsettled(rt, alloc, &hub.shared, &mut pass)?;
    let found = watch_beside(rt, alloc, &hub.shared, pass, &mut hub.committer)?;
    Some((before, found, after_the_end(rt, &hub.shared)))
}

/// The same of a new hub.
fn all_watched<J: BookNames + Send + Sync, R: Wait + Clock + Threads + Sync>(
    rt: &R,
    alloc: Global,
    opened: Opened,
) -> Option<([Watched; 2], [Watched; 3], [Watched; 2])>
    requires { opened ≡ J.names }
{
    let mut hub = share::<J>(alloc, opened)?;
    watched_in_turn(rt, alloc, &mut hub)
}

#[test]
fn what_is_settled_is_watched(rt: HostRuntime) -> Result<(), Fail> {
    let opened = Opened::new(rt.alloc())?;
    let (before, beside, after) = all_watched::<Brand, _>(&rt, rt.alloc(), opened).ok_or("watch")?;
    assert!(rt; before == [Watched::Rev(0), Watched::Nothing]);
    assert!(rt; beside == [Watched::Rev(1), Watched::Nothing, Watched::Nothing]);
    assert!(rt; after == [Watched::Failed, Watched::Rev(1)]);
    Ok(())
}
