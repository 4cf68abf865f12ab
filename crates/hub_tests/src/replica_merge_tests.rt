//! Merges among a few replicas.
use crate::replica_asks::{Ask, Case, Row, Wish};
use crate::test_asks::plays;
use crate::test_exchange::{MergedCase, plays_merged};

const SHUFFLED: [Row; 6] = [
    (1, Ask::Edit(Wish::Insert(0, "xy")), 2),
    (0, Ask::Merge(1, 1), 3),
    (0, Ask::Len, 0),
    (0, Ask::Merge(1, 0), 0),
    (0, Ask::Merge(1, 0), 2),
    (0, Ask::Len, 1),
];

const OWN: [Row; 2] = [
    (1, Ask::Edit(Wish::Insert(0, "xy")), 2),
    (0, Ask::Merge(1, 1), 20),
];

const NAMES_NOTHING: [Row; 4] = [
    (0, Ask::Edit(Wish::Insert(0, "a")), 1),
    (1, Ask::Edit(Wish::Insert(0, "x")), 1),
    (0, Ask::MergeRemove(0), 22),
    (0, Ask::MergeNowhere(1), 23),
];

const REFUSED: [Row; 8] = [
    (0, Ask::Edit(Wish::Insert(0, "a")), 1),
    (1, Ask::Edit(Wish::Insert(0, "b")), 1),
    (0, Ask::Merge(1, 0), 0),
    (0, Ask::MergeSecond(1, 1, 1, Some(0)), 21),
    (0, Ask::MergeSecond(1, 2, 1, Some(0)), 22),
    (0, Ask::MergeSecond(1, 2, 0, None), 23),
    (0, Ask::Len, 2),
    (0, Ask::HasText("ba"), 1),
];

/// Each of 17 replicas types a character, and the first one takes what the others typed.
const SEVENTEEN: [Row; 34] = [
    (0, Ask::Edit(Wish::Insert(0, "x")), 1),
    (1, Ask::Edit(Wish::Insert(0, "x")), 1),
    (2, Ask::Edit(Wish::Insert(0, "x")), 1),
    (3, Ask::Edit(Wish::Insert(0, "x")), 1),
    (4, Ask::Edit(Wish::Insert(0, "x")), 1),
    (5, Ask::Edit(Wish::Insert(0, "x")), 1),
    (6, Ask::Edit(Wish::Insert(0, "x")), 1),
    (7, Ask::Edit(Wish::Insert(0, "x")), 1),
    (8, Ask::Edit(Wish::Insert(0, "x")), 1),
    (9, Ask::Edit(Wish::Insert(0, "x")), 1),
    (10, Ask::Edit(Wish::Insert(0, "x")), 1),
    (11, Ask::Edit(Wish::Insert(0, "x")), 1),
    (12, Ask::Edit(Wish::Insert(0, "x")), 1),
    (13, Ask::Edit(Wish::Insert(0, "x")), 1),
    (14, Ask::Edit(Wish::Insert(0, "x")), 1),
    (15, Ask::Edit(Wish::Insert(0, "x")), 1),
    (16, Ask::Edit(Wish::Insert(0, "x")), 1),
    (0, Ask::Merge(1, 0), 0),
    (0, Ask::Merge(2, 0), 0),
    (0, Ask::Merge(3, 0), 0),
    (0, Ask::Merge(4, 0), 0),
    (0, Ask::Merge(5, 0), 0),
    (0, Ask::Merge(6, 0), 0),
    (0, Ask::Merge(7, 0), 0),
    (0, Ask::Merge(8, 0), 0),
    (0, Ask::Merge(9, 0), 0),
    (0, Ask::Merge(10, 0), 0),
    (0, Ask::Merge(11, 0), 0),
    (0, Ask::Merge(12, 0), 0),
    (0, Ask::Merge(13, 0), 0),
    (0, Ask::Merge(14, 0), 0),
    (0, Ask::Merge(15, 0), 0),
    (0, Ask::Merge(16, 0), 24),
    (0, Ask::Len, 16),
];

/// Two peers each type a character behind the same one and the first a third; then both take the
/// operations of the other.
const FORK: [Row; 10] = [
    (0, Ask::Edit(Wish::Insert(0, "x")), 1),
    (1, Ask::Merge(0, 0), 0),
    (0, Ask::Edit(Wish::Insert(1, "y")), 2),
    (1, Ask::Edit(Wish::Insert(1, "z")), 2),
    (0, Ask::Edit(Wish::Insert(2, "w")), 3),
    (0, Ask::Merge(1, 1), 0),
    (1, Ask::Merge(0, 1), 0),
    (1, Ask::Merge(0, 2), 0),
    (0, Ask::HasText("xzyw"), 1),
    (1, Ask::HasText("xzyw"), 1),
];

const OPENED: [Row; 4] = [
    (3, Ask::Open(0, 0), 0),
    (3, Ask::Len, 304),
    (3, Ask::IsSame(0, 1), 1),
    (3, Ask::IsSame(0, 2), 1),
];

const IN_ORDER: [Row; 7] = [
    (3, Ask::Open(0, 0), 0),
    (3, Ask::TellBehind([0, 0, 0]), 64),
    (3, Ask::TellBehind([70, 0, 3]), 64),
    (3, Ask::TellBehind([100, 80, 90]), 34),
    (3, Ask::TellBehind([0, 96, 96]), 64),
    (3, Ask::TellBehind([112, 96, 95]), 1),
    (3, Ask::TellBehind([112, 96, 96]), 0),
];

/// What each case shows of peers that edited and merged two documents, and its rows.
static MERGED: [MergedCase; 2] = [
    ("an opened list is as it was merged", &OPENED),
    ("what several replicas made is told in order", &IN_ORDER),
];

#[test]
fn replicas_that_merged_agree(rt: HostRuntime) {
    plays_merged(&rt, &MERGED);
}

static CASES: [Case; 6] = [
    ("a merge answers early applied known", &[1, 2], &SHUFFLED),
    // Both have the id of replica 2.
    (
        "an own operation that is not known is refused",
        &[2, 2],
        &OWN,
    ),
    (
        "a merge that names nothing is refused",
        &[1, 2],
        &NAMES_NOTHING,
    ),
    ("a refused merge changes nothing", &[1, 2], &REFUSED),
    (
        "a seventeenth replica is refused",
        &[1, 2, 3, 4, 5, 6, 7, 8, 9, 10, 11, 12, 13, 14, 15, 16, 17],
        &SEVENTEEN,
    ),
    ("merged texts are one", &[1, 2], &FORK),
];

#[test]
fn replicas_merge(rt: HostRuntime) {
    plays(&rt, &CASES);
}
