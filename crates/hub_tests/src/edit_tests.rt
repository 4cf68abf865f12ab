//! Edits of one replica.
use crate::replica_asks::{Ask, Case, Row, Wish};
use crate::test_asks::plays;

const EDITED: [Row; 4] = [
    (0, Ask::Edit(Wish::Insert(0, "abc")), 3),
    (0, Ask::Edit(Wish::Delete(1, 1)), 4),
    (0, Ask::Edit(Wish::Insert(2, "d")), 5),
    (0, Ask::HasText("acd"), 1),
];

const MARKED: [Row; 4] = [
    (0, Ask::Edit(Wish::Insert(0, "abc")), 3),
    (0, Ask::Edit(Wish::Mark(0, 2)), 4),
    (0, Ask::Edit(Wish::Unmark(1, 2)), 5),
    (0, Ask::Spans, 2),
];

/// Each change is at the places that those before it leave; where one isn't possible, none is made.
const TOGETHER: [Row; 12] = [
    (0, Ask::Edit(Wish::Insert(0, "one two")), 7),
    (
        0,
        Ask::Together(&[Wish::Delete(4, 3), Wish::Insert(4, "TWO"), Wish::Mark(4, 7)]),
        14,
    ),
    (0, Ask::HasText("one TWO"), 1),
    (0, Ask::Spans, 2),
    (
        0,
        Ask::Together(&[Wish::Delete(0, 4), Wish::Insert(4, "x")]),
        0,
    ),
    (
        0,
        Ask::RefusedAt(&[Wish::Delete(0, 4), Wish::Insert(4, "x")]),
        1,
    ),
    (
        0,
        Ask::RefusedAt(&[
            Wish::Insert(0, "x"),
            Wish::Mark(0, 8),
            Wish::Insert(0, "y"),
            Wish::Delete(9, 1),
        ]),
        3,
    ),
    (
        0,
        Ask::Together(&[Wish::Insert(0, "x"), Wish::InsertMany(0, 257)]),
        0,
    ),
    (0, Ask::HasText("one TWO"), 1),
    (0, Ask::Len, 14),
    (
        0,
        Ask::Together(&[Wish::Insert(7, "!"), Wish::Delete(0, 8)]),
        23,
    ),
    (0, Ask::HasText(""), 1),
];

const STALE: [Row; 4] = [
    (0, Ask::Edit(Wish::Insert(0, "ab")), 2),
    (0, Ask::Refusal(1, Some(1), Wish::Delete(2, 1)), 6),
    (0, Ask::Refusal(1, Some(2), Wish::Delete(2, 1)), 5),
    (0, Ask::Len, 2),
];

const TOO_LONG: [Row; 4] = [
    (0, Ask::Edit(Wish::Insert(0, "ab")), 2),
    (0, Ask::Refusal(1, None, Wish::InsertMany(3, 257)), 5),
    (0, Ask::Refusal(1, None, Wish::InsertMany(2, 257)), 7),
    (0, Ask::Refusal(0, None, Wish::Insert(0, "a")), 7),
];

const LIMITS: [Row; 6] = [
    (0, Ask::Edit(Wish::InsertMany(0, 256)), 256),
    (0, Ask::Refusal(1, None, Wish::Delete(256, 1)), 5),
    (0, Ask::Refusal(1, None, Wish::Delete(255, 2)), 5),
    (0, Ask::Refusal(1, Some(255), Wish::Delete(255, 1)), 6),
    (0, Ask::Refusal(1, Some(256), Wish::Delete(255, 1)), 0),
    (0, Ask::Rev(1), 257),
];

/// One character has its own record; two are one record, and not two of 87 bytes.
const LENGTHS: [Row; 3] = [
    (0, Ask::Put(Wish::Insert(0, "a")), 39),
    (0, Ask::Put(Wish::Insert(1, "bc")), 93),
    (0, Ask::Len, 3),
];

const TOLD: [Row; 7] = [
    (1, Ask::Edit(Wish::Insert(0, "xy")), 2),
    (0, Ask::Open(1, 0), 0),
    (0, Ask::Edit(Wish::Insert(0, "a")), 3),
    (0, Ask::HasClockOf(1), 1),
    (0, Ask::Tell, 2),
    (0, Ask::Ack(3), 0),
    (0, Ask::Ack(2), 1),
];

const SETTLED: [Row; 1] = [(0, Ask::Settle(Wish::Insert(0, "ab")), 2)];

const NOT_CLOSED: [Row; 3] = [
    (1, Ask::Edit(Wish::Insert(0, "xy")), 2),
    (0, Ask::Open(1, 0), 0),
    (0, Ask::Open(1, 1), 47),
];

const MADE_ONCE: [Row; 5] = [
    (0, Ask::EditUnder(1, Wish::Insert(0, "ab")), 2),
    (0, Ask::EditUnder(2, Wish::Insert(2, "c")), 3),
    (0, Ask::EditUnder(1, Wish::Insert(0, "ab")), 2),
    (0, Ask::EditUnder(2, Wish::Delete(0, 1)), 3),
    (0, Ask::HasText("abc"), 1),
];

const OPENED: [Row; 5] = [
    (0, Ask::EditUnder(1, Wish::Insert(0, "ab")), 2),
    (0, Ask::Edit(Wish::Insert(2, "c")), 3),
    (0, Ask::Open(0, 0), 0),
    (0, Ask::EditUnder(1, Wish::Insert(0, "ab")), 2),
    (0, Ask::HasText("abc"), 1),
];

const REFUSED: [Row; 3] = [
    (0, Ask::EditUnder(1, Wish::Insert(9, "a")), 0),
    (0, Ask::EditUnder(1, Wish::Insert(0, "a")), 1),
    (0, Ask::HasText("a"), 1),
];

const OF_ANOTHER: [Row; 6] = [
    (1, Ask::EditUnder(1, Wish::Insert(0, "a")), 1),
    (0, Ask::MergeAll(1), 0),
    (0, Ask::EditUnder(1, Wish::Insert(1, "b")), 2),
    (0, Ask::Open(0, 0), 0),
    (0, Ask::EditUnder(1, Wish::Insert(1, "b")), 2),
    (0, Ask::HasText("ab"), 1),
];

/// What each case shows, the last bytes of the ids of its replicas, and its rows.
static CASES: [Case; 14] = [
    ("a text is edited", &[1], &EDITED),
    ("a text is marked", &[1], &MARKED),
    ("several changes are made at once", &[1], &TOGETHER),
    ("a stale edit is refused first", &[1], &STALE),
    ("a long insert is refused after its index", &[1], &TOO_LONG),
    ("edits keep their limits", &[1], &LIMITS),
    (
        "the length of an edit is told before it is put",
        &[1],
        &LENGTHS,
    ),
    ("what is settled is told", &[1, 2], &TOLD),
    ("an edit is settled", &[1], &SETTLED),
    (
        "a list that is not closed is no replica",
        &[1, 2],
        &NOT_CLOSED,
    ),
    ("an edit with a token is made once", &[1], &MADE_ONCE),
    ("a token is known after opening", &[1], &OPENED),
    ("a refused edit leaves no token", &[1], &REFUSED),
    (
        "a token of another replica does not count",
        &[1, 2],
        &OF_ANOTHER,
    ),
];

#[test]
fn a_replica_is_edited(rt: HostRuntime) {
    plays(&rt, &CASES);
}

const STEPS: [Row; 3] = [
    (0, Ask::EditsUntilRefused(Wish::Insert(0, "x")), 349_525),
    (0, Ask::Refusal(1, None, Wish::Delete(0, 1)), 10),
    (0, Ask::Len, 349_525),
];

/// Apart from the others, since it takes many seconds.
static MANY: [Case; 1] = [("the steps of one opening run out", &[1], &STEPS)];

#[test]
fn the_steps_of_one_opening_run_out(rt: HostRuntime) {
    plays(&rt, &MANY);
}
