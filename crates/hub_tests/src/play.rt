//! Plays the rows of a table on new hubs, one after another.
use crate::asks::{Ask, Case, FailingCase, Row};
use crate::play_alone::answer_alone;
use crate::test_hubs::{Failing, NEVER, commit, failing_disk, open, reopened};
use disk_trait::{Fate, FaultDisk};
use op_model::Op;
use std::alloc::Global;
use std::process::Abort;

/// Plays the rows of each case on hubs of new replicas. Where one isn't answered as it says, it
/// fails with the case and the number of the rows before that one.
pub(crate) fn plays(rt: &(impl Abort + AllocGlobal), cases: &[Case]) {
    for (name, ids, rows) in cases {
        assert_eq!(rt;
            count_right(rt.alloc(), ids, NEVER, rows),
            rows.len(),
            "{name}"
        );
    }
}

/// The same on a hub of one new replica, of whose device calls the n-th fails: three are made by
/// the opening, seven by the first commit, eight by each other one.
pub(crate) fn plays_failing(rt: &(impl Abort + AllocGlobal), cases: &[FailingCase]) {
    for (name, n, rows) in cases {
        assert_eq!(rt;
            count_right(rt.alloc(), &[1], *n, rows),
            rows.len(),
            "{name}, where call {n} fails"
        );
    }
}

/// How many rows are answered as they say before one isn't, where the n-th device call of each hub
/// fails.
fn count_right(alloc: Global, ids: &[u8], n: u64, rows: &[Row]) -> usize {
    let Some(mut hubs) = new_hubs(alloc, ids, n) else {
        return 0;
    };
    let mut count = 0usize;
    for (place, ask, wanted) in rows {
        if answer(alloc, &mut hubs, *place, ask) != Some(*wanted) {
            return count;
        }
        count = count.saturating_add(1);
    }
    count
}

fn new_hubs(alloc: Global, ids: &[u8], n: u64) -> Option<Vec<Box<Failing>>> {
    let mut hubs = Vec::new(alloc);
    for last in ids {
        hubs.push(open(alloc, failing_disk(alloc, *last, n)?)?)
            .ok()?;
    }
    Some(hubs)
}

/// What a hub answers.
fn answer(alloc: Global, hubs: &mut Vec<Box<Failing>>, place: usize, ask: &Ask) -> Option<usize> {
    match ask {
        Ask::Take(from) => take(hubs, place, *from),
        Ask::Crash(fate, grown) => renew(alloc, hubs, place, Some((*fate, *grown))),
        Ask::Reopen => renew(alloc, hubs, place, None),
        _ => answer_alone(alloc, hubs.get_mut(place)?, ask),
    }
}

/// Commits what a hub has, and merges what it tells into another one: how many operations.
fn take(hubs: &mut Vec<Box<Failing>>, to: usize, from: usize) -> Option<usize> {
    let clock = hubs.get(to)?.clock().copy().ok()?;
    let teller = hubs.get_mut(from)?;
    if commit(teller) != 0 {
        return None;
    }
    let ops = teller.tell(&clock).ok()?;
    merge_all(hubs.get_mut(to)?, ops)
}

/// Merges all of these, none of which is refused: how many there are.
fn merge_all(hub: &mut Failing, ops: Vec<Op>) -> Option<usize> {
    let count = ops.len();
    for op in ops {
        if hub.merge(2, op).is_err() {
            return None;
        }
    }
    Some(count)
}

/// Opens the file of a hub anew, behind a crash if there is one.
pub(crate) fn renew(
    alloc: Global,
    hubs: &mut Vec<Box<Failing>>,
    place: usize,
    crash: Option<(Fate, bool)>,
) -> Option<usize> {
    if place >= hubs.len() {
        return None;
    }
    let hub = hubs.remove(place);
    hubs.insert(place, renewed(alloc, hub, crash)?).ok()?;
    Some(0)
}

fn renewed(alloc: Global, hub: Box<Failing>, crash: Option<(Fate, bool)>) -> Option<Box<Failing>> {
    match crash {
        Some((fate, grown)) => crashed(alloc, hub, fate, grown),
        None => reopened(alloc, hub),
    }
}

/// The hub that a crash leaves.
pub(crate) fn crashed(
    alloc: Global,
    hub: Box<Failing>,
    fate: Fate,
    grown: bool,
) -> Option<Box<Failing>> {
    let mut disk = Box::into_inner(hub).into_disk().into_inner();
    disk.crash(fate, grown);
    open(alloc, FaultDisk::new(disk, NEVER))
}
