//! Places that stay with a neighbour while the text changes.
use crate::test_acts::Act::{Delete, Insert};
use crate::test_acts::Who::{A, B};
use crate::test_rows::Fact::{NoPlace, Stand, StartsAtItsStart, Text};
use crate::test_rows::Step::{Does, Has, Notes, NotesTheirs, Takes};
use crate::test_rows::{Case, Row, plays};
use op_model::Neighbour::{Next, Previous};
use std::test::Fail;

const STAY: [Row<'static>; 15] = [
    (A, Does(Insert(0, "abc"))),
    (B, Takes(0)),
    (A, Notes(1, Previous)),
    (A, Notes(1, Next)),
    (A, Notes(3, Previous)),
    (A, Notes(3, Next)),
    (B, Does(Insert(1, "xy"))),
    (B, Does(Insert(5, "z"))),
    (A, Takes(0)),
    (A, Has(Text("axybcz"))),
    (A, Has(Stand(&[Some(1), Some(3), Some(5), Some(6)]))),
    (A, Does(Delete(0, 2))),
    (A, Does(Delete(1, 2))),
    (A, Has(Text("yz"))),
    (A, Has(Stand(&[Some(0), Some(1), Some(1), Some(2)]))),
];

const NONE: [Row<'static>; 7] = [
    (B, Does(Insert(0, "x"))),
    (B, Notes(1, Previous)),
    (A, NotesTheirs),
    (A, Has(Stand(&[None]))),
    (B, Has(Stand(&[Some(1)]))),
    (B, Has(NoPlace(2, Next))),
    (B, Has(StartsAtItsStart)),
];

static CASES: [Case<'static>; 2] = [
    ("places stay with their neighbour", &STAY),
    ("no place is past the end or beside the unknown", &NONE),
];

#[test]
fn places_last(rt: HostRuntime) -> Result<(), Fail> {
    plays(&rt, &CASES)
}
