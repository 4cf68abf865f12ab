//! The worked examples, by the plain programs.
use crate::test_acts::Act::{Delete, Insert, InsertMany, Mark, Unmark};
use crate::test_acts::Look::{Commented, Em, Linked, Plain, Strong};
use crate::test_acts::Who::{A, B};
use crate::test_acts::{Act, Shown, change, span_marks};
use crate::test_names::{comment, text_of};
use crate::test_plain::Fact::{Counts, Operation, Operations, Rev, Spans, Text};
use crate::test_plain::Step::{Does, Forgets, Has, Refuses, Takes};
use crate::test_plain::{Case, Row, asked, plays};
use op_model::CommentIds;
use std::alloc::Global;
use std::test::Fail;

const STRONG_GROWS: [Row<'static>; 6] = [
    (A, Does(Insert(0, "abc"))),
    (A, Does(Mark(0, 3, Strong))),
    (A, Has(Rev(4))),
    (A, Does(Insert(3, "d"))),
    (A, Has(Rev(5))),
    (A, Has(Spans(&[Shown("abcd", Strong)]))),
];

const EM_GROWS: [Row<'static>; 4] = [
    (A, Does(Insert(0, "abc"))),
    (A, Does(Mark(0, 2, Em))),
    (A, Does(Insert(2, "x"))),
    (A, Has(Spans(&[Shown("abx", Em), Shown("c", Plain)]))),
];

const LINK: [Row<'static>; 4] = [
    (A, Does(Insert(0, "abc"))),
    (A, Does(Mark(0, 2, Linked("u")))),
    (A, Does(Insert(2, "x"))),
    (
        A,
        Has(Spans(&[Shown("ab", Linked("u")), Shown("xc", Plain)])),
    ),
];

const LINK_TO_A_TOMBSTONE: [Row<'static>; 6] = [
    (A, Does(Insert(0, "ab"))),
    (A, Does(Mark(0, 2, Linked("u")))),
    (A, Does(Delete(1, 1))),
    (A, Does(Insert(1, "x"))),
    (A, Has(Rev(5))),
    (A, Has(Spans(&[Shown("a", Linked("u")), Shown("x", Plain)]))),
];

const LINK_OVER_NOTHING: [Row<'static>; 6] = [
    (A, Does(Insert(0, "a"))),
    (A, Does(Mark(0, 1, Linked("u")))),
    (A, Does(Delete(0, 1))),
    (A, Does(Insert(0, "x"))),
    (A, Has(Rev(4))),
    (A, Has(Spans(&[Shown("x", Plain)]))),
];

const OVERLAPPING: [Row<'static>; 5] = [
    (A, Does(Insert(0, "The fox jumped"))),
    (A, Does(Mark(0, 7, Strong))),
    (A, Does(Mark(4, 14, Strong))),
    (A, Has(Rev(16))),
    (A, Has(Spans(&[Shown("The fox jumped", Strong)]))),
];

const GREATEST: [Row<'static>; 6] = [
    (A, Does(Insert(0, "ab"))),
    (A, Does(Mark(0, 2, Strong))),
    (A, Does(Unmark(1, 2, Strong))),
    (A, Does(Insert(2, "c"))),
    (A, Has(Rev(5))),
    (A, Has(Spans(&[Shown("a", Strong), Shown("bc", Plain)]))),
];

const COMMENTS: [Row<'static>; 6] = [
    (A, Does(Insert(0, "abc"))),
    (A, Does(Mark(0, 2, Commented(0xc1)))),
    (A, Does(Mark(1, 3, Commented(0xc2)))),
    (A, Does(Unmark(1, 2, Commented(0xc1)))),
    (A, Has(Rev(6))),
    (
        A,
        Has(Spans(&[Shown("a", Commented(0xc1)), Shown("bc", Commented(0xc2))])),
    ),
];

const FIRST_INSERTS: [Row<'static>; 6] = [
    (A, Does(Insert(0, "a"))),
    (B, Does(Insert(0, "b"))),
    (A, Takes(0)),
    (B, Takes(0)),
    (A, Has(Text("ba"))),
    (A, Has(Rev(2))),
];

const SKIPPING: [Row<'static>; 12] = [
    (A, Does(Insert(0, "x"))),
    (B, Takes(0)),
    (A, Does(Insert(1, "y"))),
    (B, Does(Insert(1, "z"))),
    (A, Does(Insert(2, "w"))),
    (A, Has(Operations(3))),
    (A, Takes(1)),
    (A, Has(Text("xzyw"))),
    (A, Has(Operations(4))),
    (B, Takes(1)),
    (B, Forgets),
    (B, Has(Text("xzyw"))),
];

const FIRST_CAUSES: [Row<'static>; 7] = [
    (A, Does(InsertMany(0, 256))),
    (A, Has(Rev(256))),
    (A, Refuses(7, 1, None, InsertMany(0, 257))),
    (A, Refuses(5, 1, None, InsertMany(257, 257))),
    (A, Refuses(5, 1, None, Delete(256, 1))),
    (A, Refuses(6, 1, Some(255), Delete(255, 1))),
    (A, Refuses(0, 1, Some(256), Delete(255, 1))),
];

const REFUSED: [Row<'static>; 2] = [
    (A, Refuses(7, 0, Some(0), Insert(0, "a"))),
    (A, Refuses(5, 1, None, Mark(0, 0, Em))),
];

const DEPENDING: [Row<'static>; 5] = [
    (A, Does(Insert(0, "ab"))),
    (A, Does(Delete(0, 1))),
    (A, Has(Operations(3))),
    (A, Has(Operation(2, 3, 2))),
    (A, Has(Counts([1, 2, 2, 0]))),
];

static CASES: [Case<'static>; 13] = [
    ("strong grows at its end", &STRONG_GROWS),
    ("em grows before the next character", &EM_GROWS),
    ("a link keeps its end", &LINK),
    (
        "a link that ends on a tombstone keeps its end",
        &LINK_TO_A_TOMBSTONE,
    ),
    (
        "a link over nothing left covers nothing new",
        &LINK_OVER_NOTHING,
    ),
    ("overlapping strong is one span", &OVERLAPPING),
    ("the greatest covering operation decides", &GREATEST),
    ("each comment is decided by itself", &COMMENTS),
    (
        "first inserts of two peers stand in falling order",
        &FIRST_INSERTS,
    ),
    (
        "concurrent inserts skip what hangs below greater ids",
        &SKIPPING,
    ),
    ("an edit is refused by its first cause", &FIRST_CAUSES),
    ("document zero and an empty range are refused", &REFUSED),
    ("the first operation depends on all before", &DEPENDING),
];

#[test]
fn the_worked_examples_hold(rt: HostRuntime) -> Result<(), Fail> {
    plays(&rt, &CASES)
}

/// Whether a copy of an edit is equal to it.
fn is_edit_copied(alloc: Global, rev: Option<u32>, act: Act<'_>) -> Result<bool, Fail> {
    let edit = asked(1, rev, change(alloc, act)?);
    Ok(edit.copy()? == edit)
}

/// The same of the marks of a link.
fn are_marks_copied(alloc: Global) -> Result<bool, Fail> {
    let marks = span_marks(alloc, Linked("u"))?;
    Ok(marks.copy()? == marks)
}

/// The same of a text.
fn is_text_copied(alloc: Global) -> Result<bool, Fail> {
    let text = text_of(alloc, "a")?;
    Ok(text.copy()? == text)
}

/// The same of the ids of two comments.
fn are_ids_copied(alloc: Global) -> Result<bool, Fail> {
    let ids = CommentIds::from(vec![in alloc; comment(1), comment(2)]?);
    Ok(ids.copy()? == ids)
}

#[test]
fn copies_are_equal(rt: HostRuntime) -> Result<(), Fail> {
    let alloc = rt.alloc();
    assert!(rt; is_edit_copied(alloc, Some(2), Mark(0, 1, Linked("u")))?);
    assert!(rt; is_edit_copied(alloc, None, Insert(0, "ab"))?);
    assert!(rt; are_marks_copied(alloc)?);
    assert!(rt; is_text_copied(alloc)?);
    assert!(rt; are_ids_copied(alloc)?);
    Ok(())
}
