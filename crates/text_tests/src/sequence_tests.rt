//! Sequences of characters.
use crate::test_sequences::Call::{Insert, Remove, Removes, Run};
use crate::test_sequences::Row::{
    Cell, Does, Finds, LastEnded, LastEndedByNone, Refuses, RunAfter, Text, Value, Visible,
};
use crate::test_sequences::{Case, Row, plays};
use std::test::Fail;

const CONCURRENT: [Row<'static>; 6] = [
    Does(Insert((1, 1), None, 'x')),
    Does(Insert((2, 1), Some((1, 1)), 'y')),
    Does(Insert((2, 2), Some((1, 1)), 'z')),
    Does(Insert((3, 1), Some((2, 1)), 'w')),
    Text("xzyw"),
    Finds((2, 1), 2),
];

const REMOVED: [Row<'static>; 14] = [
    Does(Insert((1, 1), None, 'a')),
    Does(Insert((2, 1), Some((1, 1)), 'b')),
    Does(Remove((2, 1))),
    Text("a"),
    Visible(0, Some((1, 1))),
    Visible(1, None),
    RunAfter(1, &[(2, 1)]),
    RunAfter(0, &[]),
    Does(Insert((3, 1), Some((2, 1)), 'c')),
    Text("ac"),
    Cell(0, (1, 1), false),
    Cell(1, (2, 1), true),
    Value(2, Some('c')),
    Value(3, None),
];

const UNKNOWN: [Row<'static>; 4] = [
    Does(Insert((1, 1), None, 'a')),
    Refuses(60, Insert((3, 1), Some((2, 2)), 'b')),
    Refuses(60, Remove((2, 2))),
    Text("a"),
];

const RUNS: [Row<'static>; 6] = [
    Does(Insert((1, 1), None, 'a')),
    Does(Insert((9, 2), Some((1, 1)), 'z')),
    Does(Run(Some((1, 1)), &[((2, 1), 'b'), ((3, 1), 'c')])),
    Text("azbc"),
    Refuses(60, Run(Some((5, 5)), &[((6, 1), 'd')])),
    Text("azbc"),
];

const LAST_ENDED: [Row<'static>; 6] = [
    Does(Run(None, &[((1, 1), 'a'), ((2, 1), 'b'), ((3, 1), 'c')])),
    Does(Removes(&[(3, 1), (2, 1)])),
    Text("a"),
    LastEnded(1, Some((1, 1)), (2, 1), Some((2, 1))),
    LastEndedByNone(1, Some((1, 1)), Some((1, 1))),
    LastEnded(0, None, (2, 1), None),
];

const REMOVES: [Row<'static>; 3] = [
    Does(Run(None, &[((1, 1), 'a'), ((2, 1), 'b')])),
    Refuses(60, Removes(&[(1, 1), (7, 7)])),
    Text("ab"),
];

static CASES: [Case<'static>; 6] = [
    ("concurrent inserts stand in falling order", &CONCURRENT),
    ("a removed character stays as a tombstone", &REMOVED),
    ("an unknown id changes nothing", &UNKNOWN),
    ("a run goes in whole behind its origin", &RUNS),
    (
        "the last tombstone that a mark ends after is found",
        &LAST_ENDED,
    ),
    ("several removes go whole or not at all", &REMOVES),
];

#[test]
fn sequences_keep_their_order(rt: HostRuntime) -> Result<(), Fail> {
    plays(&rt, &CASES)
}
