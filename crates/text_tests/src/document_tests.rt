//! Documents that are edited and merged.
use crate::test_acts::Act::{Delete, Insert, InsertMany, Mark, Unmark};
use crate::test_acts::Look::{Em, Strong};
use crate::test_acts::Who::{A, B};
use crate::test_rows::Fact::{EndsBefore, Origin, Outside, Plain, Rev, Text};
use crate::test_rows::Step::{
    Does, Has, Knows, Links, Numbers, Refuses, RefusesMade, RefusesTheirs, Takes,
};
use crate::test_rows::{Case, Row, plays};
use std::test::Fail;

const FIRST_INSERTS: [Row<'static>; 10] = [
    (A, Does(Insert(0, "a"))),
    (B, Does(Insert(0, "b"))),
    (A, Takes(0)),
    (B, Takes(0)),
    (A, Has(Text("ba"))),
    (B, Has(Text("ba"))),
    (A, Has(Rev(2))),
    (B, Has(Rev(2))),
    (A, Has(Plain)),
    (B, Has(Plain)),
];

const BETWEEN: [Row<'static>; 11] = [
    (A, Does(Insert(0, "x"))),
    (B, Takes(0)),
    (A, Does(Insert(1, "y"))),
    (B, Does(Insert(1, "z"))),
    (A, Does(Insert(2, "w"))),
    (B, Takes(1)),
    (A, Takes(1)),
    (A, Has(Text("xzyw"))),
    (B, Has(Text("xzyw"))),
    (A, Has(Plain)),
    (B, Has(Plain)),
];

const LIMITS: [Row<'static>; 12] = [
    (A, Refuses(7, InsertMany(0, 257))),
    (A, Refuses(5, InsertMany(1, 257))),
    (A, Does(InsertMany(0, 256))),
    (A, Has(Rev(256))),
    (A, Refuses(5, Delete(256, 1))),
    (A, Refuses(5, Delete(255, 2))),
    (A, Refuses(5, Delete(0, 257))),
    (A, Does(Delete(255, 1))),
    (A, Has(Rev(257))),
    (A, Does(Insert(255, "bcd"))),
    (A, Refuses(7, Delete(0, 257))),
    (A, Has(Plain)),
];

const REMOVED: [Row<'static>; 5] = [
    (A, Does(Insert(0, "abcd"))),
    (A, Does(Delete(1, 2))),
    (A, Has(Text("ad"))),
    (A, Has(Rev(6))),
    (A, Has(Plain)),
];

const MARKED: [Row<'static>; 6] = [
    (A, Does(Insert(0, "abc"))),
    (A, Does(Mark(0, 2, Strong))),
    (A, Does(Unmark(1, 3, Strong))),
    (A, Has(EndsBefore(3))),
    (A, Has(Outside(Mark(2, 2, Em)))),
    (A, Has(Rev(5))),
];

const LAST_COUNTERS: [Row<'static>; 5] = [
    (A, Knows(281_474_976_710_653)),
    (A, Refuses(7, InsertMany(0, 3))),
    (A, Refuses(0, InsertMany(0, 2))),
    (A, Knows(u64::MAX)),
    (A, Refuses(7, InsertMany(0, 1))),
];

const AT_A_LINK: [Row<'static>; 8] = [
    (A, Does(Insert(0, "ab"))),
    (A, Links(1, 2)),
    (A, Does(Delete(1, 1))),
    (A, Has(Origin(1, 5, Some(2)))),
    (A, Does(Insert(1, "x"))),
    (A, Has(Text("ax"))),
    // The link's last character is a tombstone between the two.
    (A, Numbers(&[1, 2, 5])),
    (A, Has(Text("a01x2"))),
];

const BEFORE_TOMBSTONES: [Row<'static>; 9] = [
    (A, Does(Insert(0, "abc"))),
    (A, Links(1, 2)),
    (A, Does(Delete(1, 1))),
    (A, Does(Delete(1, 1))),
    (A, Has(Origin(1, 7, Some(2)))),
    (A, Does(Insert(1, "x"))),
    (A, Has(Text("ax"))),
    // The first tombstone stands before the new character, the second one behind it.
    (A, Numbers(&[1, 2, 7, 3])),
    (A, Has(Text("a01x23"))),
];

const AT_THE_BEGINNING: [Row<'static>; 6] = [
    (A, Does(Insert(0, "a"))),
    (A, Does(Delete(0, 1))),
    (A, Has(Origin(0, 3, None))),
    (A, Does(Insert(0, "x"))),
    (A, Numbers(&[3, 1])),
    (A, Has(Text("x01"))),
];

const UNKNOWN: [Row<'static>; 9] = [
    (B, Does(Insert(0, "pq"))),
    (A, Does(Insert(0, "a"))),
    (B, Does(Delete(1, 1))),
    (A, RefusesTheirs(60, 1)),
    (A, Has(Plain)),
    (A, RefusesTheirs(60, 2)),
    (A, Has(Plain)),
    (A, RefusesMade(60, Delete(0, 1))),
    (A, Has(Plain)),
];

static CASES: [Case<'static>; 10] = [
    (
        "concurrent first inserts stand in falling order",
        &FIRST_INSERTS,
    ),
    (
        "an insert between concurrent ones keeps its place",
        &BETWEEN,
    ),
    ("edits keep their limits", &LIMITS),
    ("several characters are removed at once", &REMOVED),
    ("a mark is made and taken away", &MARKED),
    ("counters end at the last", &LAST_COUNTERS),
    (
        "an insert hangs from the tombstone that a link ends after",
        &AT_A_LINK,
    ),
    (
        "an insert passes by later tombstones that no mark ends after",
        &BEFORE_TOMBSTONES,
    ),
    (
        "an insert at the beginning has no origin",
        &AT_THE_BEGINNING,
    ),
    ("an unknown character leaves the document", &UNKNOWN),
];

#[test]
fn documents_are_edited_and_merged(rt: HostRuntime) -> Result<(), Fail> {
    plays(&rt, &CASES)
}
