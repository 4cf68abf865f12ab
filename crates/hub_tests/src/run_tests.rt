//! A list of calls, replayed.
use crate::asks::{Ask, Call, Case, Row, Said};
use crate::play::{crashed, plays};
use crate::test_hubs::{Failing, NEVER, edit_of, failing_disk, open};
use disk_trait::Fate;
use locked_replica::{HubStep, run};
use std::alloc::Global;

/// An insert, a whole commit and one device step more, its settlement and its acknowledgement.
const FIRST: [Said; 12] = [
    (Call::Insert(0, 'a'), "made"),
    (Call::Begin, "begun"),
    (Call::Step, "page 0"),
    (Call::Step, "page 1"),
    (Call::Step, "sync 1"),
    (Call::Step, "body"),
    (Call::Step, "sync 2"),
    (Call::Step, "gate"),
    (Call::Step, "sync 3"),
    (Call::Step, "idle"),
    (Call::Settle, "settled"),
    (Call::Ack, "acknowledged"),
];

const FIRST_COMMIT: [Row; 1] = [(0, Ask::Run(&FIRST, 12), 12)];

/// A second insert and its commit.
const SECOND: [Said; 10] = [
    (Call::Insert(1, 'b'), "made"),
    (Call::Begin, "begun"),
    (Call::Step, "page 0"),
    (Call::Step, "page 1"),
    (Call::Step, "close"),
    (Call::Step, "sync 1"),
    (Call::Step, "body"),
    (Call::Step, "sync 2"),
    (Call::Step, "gate"),
    (Call::Step, "sync 3"),
];

const SECOND_COMMIT: [Row; 5] = [
    (0, Ask::Run(&FIRST, 9), 9),
    (0, Ask::Settle, 0),
    (0, Ask::Run(&SECOND, 10), 10),
    (0, Ask::Settled, 1),
    (0, Ask::Len, 2),
];

/// A second insert whose commit has no gate to close.
const NOT_CLOSED: [Said; 9] = [
    (Call::Insert(1, 'd'), "made"),
    (Call::Begin, "begun"),
    (Call::Step, "page 0"),
    (Call::Step, "page 1"),
    (Call::Step, "sync 1"),
    (Call::Step, "body"),
    (Call::Step, "sync 2"),
    (Call::Step, "gate"),
    (Call::Step, "sync 3"),
];

/// A crash in the gate write of a second commit leaves a byte 7 there.
const TORN_GATE: [Row; 5] = [
    (0, Ask::Run(&FIRST, 9), 9),
    (0, Ask::Settle, 0),
    (0, Ask::Run(&SECOND, 9), 9),
    (0, Ask::Crash(Fate::Fill(7), true), 0),
    (0, Ask::Run(&NOT_CLOSED, 9), 9),
];

/// The edit of this number and a commit with `calls` device calls.
fn commit(alloc: Global, number: usize, calls: usize) -> Option<Vec<HubStep>> {
    let edit = edit_of(alloc, number)?;
    let mut steps = Vec::new(alloc);
    steps.push(HubStep::Edit { session: 1, edit }).ok()?;
    steps.push(HubStep::Begin).ok()?;
    for _ in 0..calls {
        steps.push(HubStep::DeviceStep).ok()?;
    }
    Some(steps)
}

/// The edit of this number, and its commit, settled.
fn settle(alloc: Global, hub: &mut Failing, number: usize) -> Option<()> {
    let mut steps = commit(alloc, number, 8)?;
    steps.push(HubStep::Settle).ok()?;
    run(alloc, hub, &steps).ok()?;
    Some(())
}

/// A hub with the edits below this number settled, and the commit of this one stopped behind
/// `calls` device calls.
fn stopped(alloc: Global, number: usize, calls: usize) -> Option<Box<Failing>> {
    let mut hub = open(alloc, failing_disk(alloc, 1, NEVER)?)?;
    for below in 0..number {
        settle(alloc, &mut hub, below)?;
    }
    run(alloc, &mut hub, &commit(alloc, number, calls)?).ok()?;
    Some(hub)
}

static FATES: [Fate; 6] = [
    Fate::Old,
    Fate::New,
    Fate::Fill(0),
    Fate::Fill(1),
    Fate::Fill(7),
    Fate::Fill(255),
];

/// Whether each crash of a commit that is stopped so leaves this many operations, or that many
/// where it raises the gate.
fn leaves(alloc: Global, number: usize, calls: usize, plain: usize, raised: usize) -> Option<bool> {
    for fate in &FATES {
        let is_raised = matches!(fate, Fate::New | Fate::Fill(1));
        let wanted = if is_raised { raised } else { plain };
        for grown in [false, true] {
            let hub = crashed(alloc, stopped(alloc, number, calls)?, *fate, grown)?;
            if hub.list().len() != wanted {
                return Some(false);
            }
        }
    }
    Some(true)
}

#[test]
fn a_stop_leaves_the_settled_list_or_the_commits(rt: HostRuntime) {
    // The first commit has no gate to close: it makes 7 calls, the others 8.
    for (number, last) in [(0usize, 7usize), (1, 8), (2, 8)] {
        for calls in 0..last + 1 {
            let plain = if calls == last { number + 1 } else { number };
            let raised = if calls + 1 < last { number } else { number + 1 };
            let found = leaves(rt.alloc(), number, calls, plain, raised);
            assert_eq!(rt; found, Some(true), "{calls} calls of commit {number}");
        }
    }
}

/// An insert, and the beginning of its commit.
const BEGUN: [Said; 2] = [(Call::Insert(0, 'b'), "made"), (Call::Begin, "begun")];

/// What another replica tells, twice.
const TOLD_TWICE: [Said; 2] = [(Call::MergeOf(1), "applied"), (Call::MergeOf(1), "known")];

const MERGED_ONCE: [Row; 4] = [
    (0, Ask::Run(&BEGUN, 2), 2),
    (0, Ask::Run(&TOLD_TWICE, 2), 2),
    (0, Ask::Shows("ba"), 1),
    (0, Ask::Have, 1),
];

static CASES: [Case; 4] = [
    (
        "a first commit makes its calls in order",
        &[1],
        &FIRST_COMMIT,
    ),
    (
        "a second commit closes the other gate first",
        &[1],
        &SECOND_COMMIT,
    ),
    ("a torn gate is not closed", &[1], &TORN_GATE),
    ("what is told is merged once", &[2], &MERGED_ONCE),
];

#[test]
fn lists_of_calls_are_replayed(rt: HostRuntime) {
    plays(&rt, &CASES);
}
