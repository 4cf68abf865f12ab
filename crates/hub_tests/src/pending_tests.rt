//! How much may wait for a commit.
use crate::asks::{Ask, Case, Row};
use crate::play::plays;

/// 945 inserts of 256 characters, each one record, which fill 1,047,957 bytes: the first takes
/// 1,061, and each of the others 1,109. Then inserts behind them, a merge, and an insert once a
/// commit has begun.
const MEBIBYTE: [Row; 8] = [
    (0, Ask::Fill(945), 0),
    (0, Ask::InsertMany(241_920, 256), 8),
    (0, Ask::InsertMany(241_920, 134), 8),
    (0, Ask::InsertMany(241_920, 133), 0),
    (0, Ask::InsertMany(242_053, 1), 8),
    (0, Ask::MergeOf(2, "b", 0), 8),
    (0, Ask::Begin, 0),
    (0, Ask::InsertMany(242_053, 256), 0),
];

static CASES: [Case; 1] = [(
    "at most a mebibyte of records waits for a commit",
    &[1],
    &MEBIBYTE,
)];

#[test]
fn what_waits_has_its_limit(rt: HostRuntime) {
    plays(&rt, &CASES);
}
