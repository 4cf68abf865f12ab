//! A hub takes what peers made.
use crate::asks::{Ask, Case, Row};
use crate::play::plays;

/// One peer types "x", then "y" and "w" behind it; the other one, which has "x", "z" behind that.
/// Then each takes what the other one has.
const FORK: [Row; 9] = [
    (0, Ask::Insert(0, 'x'), 0),
    (1, Ask::Take(0), 1),
    (1, Ask::Insert(1, 'z'), 0),
    (0, Ask::Insert(1, 'y'), 0),
    (0, Ask::Insert(2, 'w'), 0),
    (1, Ask::Take(0), 2),
    (0, Ask::Take(1), 1),
    (0, Ask::Shows("xzyw"), 1),
    (1, Ask::Shows("xzyw"), 1),
];

/// The second of two operations, then the first one, twice.
const SHUFFLED: [Row; 9] = [
    (0, Ask::MergeOf(2, "xy", 1), 3),
    (0, Ask::Len, 0),
    (0, Ask::Replicas, 0),
    (0, Ask::MergeOf(2, "xy", 0), 0),
    (0, Ask::Len, 1),
    (0, Ask::Replicas, 1),
    (0, Ask::MergeOf(2, "xy", 0), 2),
    (0, Ask::Len, 1),
    (0, Ask::Replicas, 1),
];

const OWN: [Row; 3] = [
    (0, Ask::MergeOf(1, "x", 0), 20),
    (0, Ask::Len, 0),
    (0, Ask::Replicas, 0),
];

/// Operations that fail a check each behind the first ones of replicas 1 and 2: an old counter, a
/// name that isn't depended on, document 0.
const REFUSED: [Row; 12] = [
    (0, Ask::Insert(0, 'a'), 0),
    (0, Ask::MergeOf(2, "b", 0), 0),
    (0, Ask::MergeSecond(1, 1, false), 21),
    (0, Ask::Len, 2),
    (0, Ask::Replicas, 2),
    (0, Ask::MergeSecond(2, 1, true), 22),
    (0, Ask::Len, 2),
    (0, Ask::Replicas, 2),
    (0, Ask::MergeSecond(2, 0, false), 23),
    (0, Ask::Len, 2),
    (0, Ask::Replicas, 2),
    (0, Ask::Shows("ba"), 1),
];

/// The first operations of replicas 2 to 17, to a hub of replica 1.
const SEVENTEEN: [Row; 21] = [
    (0, Ask::Insert(0, 'a'), 0),
    (0, Ask::MergeOf(2, "x", 0), 0),
    (0, Ask::MergeOf(3, "x", 0), 0),
    (0, Ask::MergeOf(4, "x", 0), 0),
    (0, Ask::MergeOf(5, "x", 0), 0),
    (0, Ask::MergeOf(6, "x", 0), 0),
    (0, Ask::MergeOf(7, "x", 0), 0),
    (0, Ask::MergeOf(8, "x", 0), 0),
    (0, Ask::MergeOf(9, "x", 0), 0),
    (0, Ask::MergeOf(10, "x", 0), 0),
    (0, Ask::MergeOf(11, "x", 0), 0),
    (0, Ask::MergeOf(12, "x", 0), 0),
    (0, Ask::MergeOf(13, "x", 0), 0),
    (0, Ask::MergeOf(14, "x", 0), 0),
    (0, Ask::MergeOf(15, "x", 0), 0),
    (0, Ask::MergeOf(16, "x", 0), 0),
    (0, Ask::Len, 16),
    (0, Ask::Replicas, 16),
    (0, Ask::MergeOf(17, "x", 0), 24),
    (0, Ask::Len, 16),
    (0, Ask::Replicas, 16),
];

static CASES: [Case; 5] = [
    ("inserts of two peers at one place go alike", &[1, 2], &FORK),
    ("a merge answers early applied known", &[1], &SHUFFLED),
    ("an own operation that is not known is refused", &[1], &OWN),
    ("a merge that fails a check changes nothing", &[1], &REFUSED),
    ("a seventeenth replica is refused", &[1], &SEVENTEEN),
];

#[test]
fn a_hub_takes_what_peers_made(rt: HostRuntime) {
    plays(&rt, &CASES);
}
