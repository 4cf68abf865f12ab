//! Device calls that fail, and what is there when the file is opened anew.
use crate::asks::{Ask, FailingCase, Row};
use crate::play::plays_failing;
use crate::test_hubs::{Failing, edit_of, failing_disk, make_calls, open, reopened};
use disk_trait::Fate;
use locked_replica::Hub;
use op_model::Action;
use std::alloc::Global;

/// Makes an edit and commits it. Tells whether no device call failed.
fn commit(hub: &mut Failing, edit: Option<Action>) -> Option<bool> {
    if hub.edit(1, &edit?).is_err() || !matches!(hub.begin(), Ok(Some(1..=3))) {
        return None;
    }
    Some(make_calls(hub) == 0 && hub.settle().is_ok())
}

/// Makes all edits, each with its commit, as long as no device call fails. Tells whether none did.
fn run_all(alloc: Global, hub: &mut Failing) -> Option<bool> {
    for number in 0..3 {
        if !commit(hub, edit_of(alloc, number))? {
            return Some(false);
        }
    }
    Some(true)
}

/// The hub of a new file, of whose device calls the n-th fails: those of opening it are a sync, a
/// size and a read. Where the opening is refused for it, the file is opened again; tells that.
fn opened(alloc: Global, n: u64) -> Option<(Box<Failing>, bool)> {
    match Hub::open(alloc, failing_disk(alloc, 1, n)?) {
        Ok(hub) => Some((Box::new(alloc, hub).ok()?, false)),
        Err(fault) => match fault.cause.number() {
            50 | 52 => Some((open(alloc, fault.disk)?, true)),
            _ => None,
        },
    }
}

/// How many operations a hub has settled, and how many it has.
fn lengths(hub: &Failing) -> (usize, usize) {
    (hub.settled(), hub.list().len())
}

/// Whether a hub that is opened anew has what was settled or what the commit had, and goes on.
fn goes_on(alloc: Global, hub: &mut Failing, before: (usize, usize)) -> Option<bool> {
    let (settled, left) = lengths(hub);
    if settled != left || left != before.0 && left != before.1 {
        return Some(false);
    }
    if left == 3 {
        return Some(true);
    }
    commit(hub, edit_of(alloc, left))
}

/// Whether a call failed where the n-th one does, and whether the hub that is opened anew then
/// goes on.
fn stands(alloc: Global, n: u64) -> Option<(bool, bool)> {
    let (mut hub, was_refused) = opened(alloc, n)?;
    if run_all(alloc, &mut hub)? && !was_refused {
        return Some((false, true));
    }
    let before = lengths(&hub);
    let mut again = reopened(alloc, hub)?;
    Some((true, goes_on(alloc, &mut again, before)?))
}

#[test]
fn each_call_that_fails_leaves_what_is_settled_or_the_commits(rt: HostRuntime) {
    // Three calls of opening, seven of the first commit, eight of each other one.
    for n in 1..27 {
        assert!(rt; stands(rt.alloc(), n) == Some((true, true)), "call {n}");
    }
    assert!(rt; stands(rt.alloc(), 27) == Some((false, true)));
}

/// A second commit of which a write is refused, what is refused then, and the text that the file
/// has.
const WRITE_FAILS: [Row; 9] = [
    (0, Ask::Insert(0, 'a'), 0),
    (0, Ask::Commit, 0),
    (0, Ask::Insert(1, 'b'), 0),
    (0, Ask::Commit, 51),
    (0, Ask::Step, 44),
    (0, Ask::Settle, 44),
    (0, Ask::Insert(0, 'c'), 9),
    (0, Ask::Reopen, 0),
    (0, Ask::Shows("a"), 1),
];

/// The same where the last sync is refused, after which the file has both characters.
const SYNC_FAILS: [Row; 9] = [
    (0, Ask::Insert(0, 'a'), 0),
    (0, Ask::Commit, 0),
    (0, Ask::Insert(1, 'b'), 0),
    (0, Ask::Commit, 52),
    (0, Ask::Step, 44),
    (0, Ask::Settle, 44),
    (0, Ask::Insert(0, 'c'), 9),
    (0, Ask::Reopen, 0),
    (0, Ask::Shows("ab"), 1),
];

const GATE_FAILS: [Row; 6] = [
    (0, Ask::Insert(0, 'a'), 0),
    (0, Ask::Commit, 0),
    (0, Ask::Insert(1, 'b'), 0),
    (0, Ask::Commit, 51),
    (0, Ask::Crash(Fate::Fill(1), true), 0),
    (0, Ask::Shows("ab"), 1),
];

/// What each case shows, which device call fails, and its rows.
static CASES: [FailingCase; 4] = [
    (
        "the body's write fails, which is told until the file is opened anew",
        15,
        &WRITE_FAILS,
    ),
    (
        "the gate's write fails, which is told until the file is opened anew",
        17,
        &WRITE_FAILS,
    ),
    (
        "the last sync fails, which is told until the file is opened anew",
        18,
        &SYNC_FAILS,
    ),
    (
        "a gate that failed may be open behind a crash",
        17,
        &GATE_FAILS,
    ),
];

#[test]
fn a_failed_call_is_told_until_the_file_is_opened_anew(rt: HostRuntime) {
    plays_failing(&rt, &CASES);
}
