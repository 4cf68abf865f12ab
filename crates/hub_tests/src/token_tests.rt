//! Edits under a token, in a hub.
use crate::asks::{Ask, Case, Row};
use crate::play::plays;
use disk_trait::Fate;

/// Whatever an edit asks for under a token, it has its first answer, and nothing is added.
const SENT_AGAIN: [Row; 5] = [
    (0, Ask::Under(7, 'a'), 1),
    (0, Ask::Under(8, 'b'), 2),
    (0, Ask::Again(7, 'a', 1, 1), 1),
    (0, Ask::Again(7, 'c', 1, 1), 1),
    (0, Ask::Len, 2),
];

const SETTLED_AND_LOST: [Row; 6] = [
    (0, Ask::Under(7, 'a'), 1),
    (0, Ask::Commit, 0),
    (0, Ask::Under(8, 'b'), 2),
    (0, Ask::Crash(Fate::Old, false), 0),
    (0, Ask::Again(7, 'a', 1, 1), 1),
    (0, Ask::Under(8, 'b'), 2),
];

const OF_ANOTHER: [Row; 4] = [
    (1, Ask::Under(7, 'a'), 1),
    (0, Ask::Take(1), 1),
    (0, Ask::Under(7, 'b'), 2),
    (0, Ask::Again(7, 'b', 2, 2), 1),
];

static CASES: [Case; 3] = [
    ("an edit that is sent again acts once", &[1], &SENT_AGAIN),
    (
        "a settled edit is known behind a crash",
        &[1],
        &SETTLED_AND_LOST,
    ),
    (
        "a token of another replica does not count",
        &[1, 2],
        &OF_ANOTHER,
    ),
];

#[test]
fn an_edit_under_a_token_acts_once(rt: HostRuntime) {
    plays(&rt, &CASES);
}
