//! How several documents of a hub that threads share are watched.
ghost use Rattle.std.specs.Prelude.{◌≡◌};

use crate::test_hubs::{share, take_pass};
use crate::watch_tests::settle_edit;
use disk_trait::MemDisk;
use pass_books::BookNames;
use shared_hub::{
    Committer, Named, NoCheckpoint, Opened, Pass, Shared, WatchBook, WatchedOf, flush,
};
use std::alloc::Global;
use std::marker::Brand;
use std::rt::Clock;
use std::sync::{Mutex, Wait};
use std::test::Fail;
use std::thread::{self, Threads};
use std::time::Duration;

/// What the next of some documents has come to, at once.
fn next<J: BookNames, R: Wait + Clock>(
    rt: &R,
    shared: &Shared<J>,
    book: &mut WatchBook,
) -> Option<WatchedOf> {
    shared.watch_several(rt, book, Duration::ZERO).ok()
}

/// What is told next, three times.
fn next_three<J: BookNames, R: Wait + Clock>(
    rt: &R,
    shared: &Shared<J>,
    book: &mut WatchBook,
) -> Option<[WatchedOf; 3]> {
    Some([
        next(rt, shared, book)?,
        next(rt, shared, book)?,
        next(rt, shared, book)?,
    ])
}

/// The same by books of these documents and of all.
fn told_of<J: BookNames, R: Wait + Clock>(
    rt: &R,
    alloc: Global,
    shared: &Shared<J>,
    pass: &mut Pass<J>,
    (these, all): (&mut WatchBook, &mut WatchBook),
) -> Option<[[WatchedOf; 3]; 5]> {
    let first = next_three(rt, shared, these)?;
    settle_edit(rt, alloc, shared, pass, 1)?;
    settle_edit(rt, alloc, shared, pass, 3)?;
    let second = next_three(rt, shared, these)?;
    let whole = next_three(rt, shared, all)?;
    settle_edit(rt, alloc, shared, pass, 2)?;
    Some([
        first,
        second,
        whole,
        next_three(rt, shared, these)?,
        next_three(rt, shared, all)?,
    ])
}

/// What is told of documents 1 and 2: at first, after settled edits of documents 1 and 3, and after
/// one of document 2. And what is told of all documents before that one, and after it.
fn told<J: BookNames, R: Wait + Clock>(
    rt: &R,
    alloc: Global,
    shared: &Shared<J>,
    pass: &mut Pass<J>,
) -> Option<[[WatchedOf; 3]; 5]> {
    let mut these = shared.watch_these(rt, alloc, &[2, 1, 2]).ok()?;
    let mut all = WatchBook::of_all(alloc);
    told_of(rt, alloc, shared, pass, (&mut these, &mut all))
}

/// Watches while this thread flushes, and gives what was told.
fn told_beside<J: BookNames + Send + Sync, R: Wait + Clock + Threads + Sync>(
    rt: &R,
    alloc: Global,
    shared: &Shared<J>,
    pass: Pass<J>,
    committer: &mut Committer<J, MemDisk>,
) -> Option<[[WatchedOf; 3]; 5]> {
    let found = Mutex::new(None);
    let seen = &found;
    thread::scope(thread::scope_env(), rt, |scope| {
        let watching = scope.spawn(move || {
            let mut pass = pass;
            *seen.lock(rt) = told(rt, alloc, shared, &mut pass);
            shared.close(rt);
        });
        if watching.is_ok() {
            flush(rt, shared, committer, &NoCheckpoint);
        }
    });
    found.into_inner()
}

/// What is told of documents 1 and 2 after the flusher's end.
fn told_late<J: BookNames, R: Wait + Clock>(
    rt: &R,
    alloc: Global,
    shared: &Shared<J>,
) -> Option<[WatchedOf; 3]> {
    let mut late = shared.watch_these(rt, alloc, &[1, 2]).ok()?;
    next_three(rt, shared, &mut late)
}

/// What was told, and what is told after the flusher's end.
fn told_in_turn<J: BookNames + Send + Sync, R: Wait + Clock + Threads + Sync>(
    rt: &R,
    alloc: Global,
    hub: &mut Named<J, MemDisk>,
) -> Option<([[WatchedOf; 3]; 5], [WatchedOf; 3])> {
    let pass = take_pass(hub)?;
    let found = told_beside(rt, alloc, &hub.shared, pass, &mut hub.committer)?;
    Some((found, told_late(rt, alloc, &hub.shared)?))
}

/// The same of a new hub.
fn all_told<J: BookNames + Send + Sync, R: Wait + Clock + Threads + Sync>(
    rt: &R,
    alloc: Global,
    opened: Opened,
) -> Option<([[WatchedOf; 3]; 5], [WatchedOf; 3])>
    requires { opened ≡ J.names }
{
    let mut hub = share::<J>(alloc, opened)?;
    told_in_turn(rt, alloc, &mut hub)
}

/// So many settled operations of a document.
fn rev(doc: u32, rev: u64) -> WatchedOf {
    WatchedOf::Rev { doc, rev }
}

#[test]
fn what_is_settled_of_several_is_watched(rt: HostRuntime) -> Result<(), Fail> {
    let opened = Opened::new(rt.alloc())?;
    let (found, late) = all_told::<Brand, _>(&rt, rt.alloc(), opened).ok_or("watch")?;
    let nothing = WatchedOf::Nothing;
    assert!(rt; found[0] == [rev(1, 0), rev(2, 0), nothing]);
    assert!(rt; found[1] == [rev(1, 1), nothing, nothing]);
    assert!(rt; found[2] == [rev(1, 1), rev(3, 1), nothing]);
    assert!(rt; found[3] == [rev(2, 1), nothing, nothing]);
    assert!(rt; found[4] == [rev(2, 1), nothing, nothing]);
    assert!(rt; late == [rev(1, 1), rev(2, 1), WatchedOf::Failed]);
    Ok(())
}
