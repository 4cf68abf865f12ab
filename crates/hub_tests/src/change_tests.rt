//! What changed in a replica's document.
use crate::replica_asks::Turn::{Drop, Keep, Mark, Put};
use crate::replica_asks::{Ask, Case, Row, Turn, Wish};
use crate::test_asks::plays;

/// Since "abc" was typed.
const DROPPED: &[Turn] = &[Keep(1), Drop(1), Keep(1), Put("d")];

/// Both peers remove the same character, and the second one types another; the first takes both.
const REMOVED_TWICE: [Row; 14] = [
    (0, Ask::Edit(Wish::Insert(0, "abc")), 3),
    (1, Ask::MergeAll(0), 0),
    (0, Ask::Edit(Wish::Delete(1, 1)), 4),
    (1, Ask::Edit(Wish::Delete(1, 1)), 4),
    (1, Ask::Edit(Wish::Insert(2, "d")), 5),
    (0, Ask::Merge(1, 3), 0),
    (0, Ask::Merge(1, 4), 0),
    (0, Ask::Changes(0, &[Put("acd")]), 1),
    (0, Ask::Changes(3, DROPPED), 1),
    (0, Ask::Changes(4, &[Keep(2), Put("d")]), 1),
    (0, Ask::Changes(5, &[Keep(2), Put("d")]), 1),
    (0, Ask::Changes(6, &[Keep(3)]), 1),
    (0, Ask::Changes(7, &[]), 2),
    (1, Ask::Changes(3, DROPPED), 1),
];

/// A peer opens its own list again.
const OPENED: [Row; 8] = [
    (0, Ask::Edit(Wish::Insert(0, "abc")), 3),
    (0, Ask::Edit(Wish::Delete(1, 1)), 4),
    (0, Ask::Open(0, 0), 0),
    (0, Ask::Changes(3, &[]), 2),
    (0, Ask::Changes(0, &[Put("ac")]), 1),
    (0, Ask::Changes(4, &[Keep(2)]), 1),
    (0, Ask::Edit(Wish::Mark(0, 1)), 5),
    (0, Ask::Changes(4, &[Mark(1), Keep(1)]), 1),
];

static CASES: [Case; 2] = [
    (
        "a character removed twice is dropped once",
        &[1, 2],
        &REMOVED_TWICE,
    ),
    ("what changed before an opening is not told", &[1], &OPENED),
];

#[test]
fn what_changed_is_told(rt: HostRuntime) {
    plays(&rt, &CASES);
}
