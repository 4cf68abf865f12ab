//! What changed in a document, as steps over the text that a reader has.
use crate::test_acts::Act;
use crate::test_acts::Act::{Delete, Insert, InsertMany, Mark, Unmark};
use crate::test_acts::Look::{Commented, Em, Plain, Strong};
use crate::test_acts::Who::{A, B};
use crate::test_changes::{Due, after, are_same, changes, characters, follows};
use crate::test_documents::Peer;
use crate::test_rows::Fact::{Changed, Follows};
use crate::test_rows::Step::{Does, Has, Numbers, Takes};
use crate::test_rows::{Case, Row, plays};
use std::alloc::Global;
use std::test::Fail;

const TYPED: [Row<'static>; 7] = [
    (A, Does(Insert(0, "abc"))),
    (A, Does(Insert(1, "x"))),
    (A, Does(Delete(3, 1))),
    (
        A,
        Has(Changed(
            3,
            &[
                Due::Keep(1),
                Due::Put("x", Plain),
                Due::Keep(1),
                Due::Drop(1),
            ],
        )),
    ),
    (A, Has(Follows(3))),
    (A, Has(Changed(5, &[Due::Keep(3)]))),
    (A, Has(Follows(5))),
];

const MARKED: [Row<'static>; 5] = [
    (A, Does(Insert(0, "abc"))),
    (A, Does(Mark(1, 3, Strong))),
    (A, Does(Insert(3, "d"))),
    (
        A,
        Has(Changed(
            3,
            &[Due::Keep(1), Due::Mark(2, Strong), Due::Put("d", Strong)],
        )),
    ),
    (A, Has(Follows(3))),
];

const REMOVED_TWICE: [Row<'static>; 7] = [
    (A, Does(Insert(0, "abc"))),
    (B, Takes(0)),
    (A, Does(Delete(1, 1))),
    (B, Does(Delete(1, 2))),
    (A, Takes(3)),
    (A, Has(Changed(4, &[Due::Keep(1), Due::Drop(1)]))),
    (A, Has(Follows(4))),
];

const CONCURRENT: [Row<'static>; 7] = [
    (A, Does(Insert(0, "abc"))),
    (B, Takes(0)),
    (A, Does(Insert(1, "x"))),
    (B, Does(Insert(1, "yz"))),
    (A, Takes(3)),
    (
        A,
        Has(Changed(4, &[Due::Keep(1), Due::Put("yz", Plain), Due::Keep(3)])),
    ),
    (A, Has(Follows(4))),
];

const CAME_AND_WENT: [Row<'static>; 9] = [
    (A, Does(Insert(0, "abc"))),
    (A, Does(Mark(0, 3, Strong))),
    (A, Does(Insert(1, "x"))),
    (A, Does(Delete(1, 1))),
    (A, Does(Delete(1, 1))),
    (A, Numbers(&[2])),
    (A, Does(Unmark(2, 3, Strong))),
    (
        A,
        Has(Changed(
            4,
            &[
                Due::Keep(1),
                Due::Drop(1),
                Due::Put("0", Strong),
                Due::Mark(1, Plain),
            ],
        )),
    ),
    (A, Has(Follows(4))),
];

/// A stretch of a chunk and more.
const MANY: Row<'static> = (A, Does(InsertMany(0, 256)));

/// A text of many chunks.
const LONG: [Row<'static>; 18] = [
    MANY,
    MANY,
    MANY,
    MANY,
    MANY,
    MANY,
    MANY,
    MANY,
    MANY,
    MANY,
    MANY,
    MANY,
    (A, Does(Insert(1000, "z"))),
    (A, Does(Delete(2500, 2))),
    (
        A,
        Has(Changed(
            3072,
            &[
                Due::Keep(1000),
                Due::Put("z", Plain),
                Due::Keep(1499),
                Due::Drop(2),
                Due::Keep(571),
            ],
        )),
    ),
    (A, Does(Mark(10, 2400, Strong))),
    (A, Has(Changed(3076, &[Due::Keep(3071)]))),
    (
        A,
        Has(Changed(
            3075,
            &[Due::Keep(10), Due::Mark(2390, Strong), Due::Keep(671)],
        )),
    ),
];

static CASES: [Case<'static>; 6] = [
    (
        "what is typed is put and what is removed is dropped",
        &TYPED,
    ),
    ("a mark since marks what was there", &MARKED),
    ("a second remove drops nothing", &REMOVED_TWICE),
    ("a concurrent text is put at its place", &CONCURRENT),
    ("what came and went is not told", &CAME_AND_WENT),
    ("far parts of a long text stay", &LONG),
];

#[test]
fn what_changed_is_told(rt: HostRuntime) -> Result<(), Fail> {
    plays(&rt, &CASES)
}

/// Two replicas that have "abc".
fn abc(alloc: Global) -> Result<(Box<Peer>, Box<Peer>), Fail> {
    let mut a = Peer::new(alloc, 1)?;
    let mut b = Peer::new(alloc, 2)?;
    a.edit(Insert(0, "abc"))?;
    b.take_from(&a, 0)?;
    Ok((a, b))
}

/// The next number that looks random, below a bound, or 0.
fn below(state: &mut u64, bound: u32) -> u32 {
    *state = state
        .wrapping_mul(6_364_136_223_846_793_005)
        .wrapping_add(1_442_695_040_888_963_407);
    let number = (*state >> 40) as u32;
    if bound == 0 { 0 } else { number % bound }
}

/// An edit somewhere in a text of this size.
fn somewhere(state: &mut u64, size: u32) -> Act<'static> {
    if size == 0 {
        return Insert(0, "pq");
    }
    let from = below(state, size);
    let most = size.wrapping_sub(from);
    let to = from.wrapping_add(1).wrapping_add(below(state, most));
    match below(state, 8) {
        0 => Delete(from, 1),
        1 => Delete(from, to.wrapping_sub(from).min(200)),
        2 => Mark(from, to, Strong),
        3 => Unmark(from, to, Strong),
        4 => Mark(from, to, Commented(1)),
        5 => Mark(from, to, Em),
        6 => Insert(from, "rst"),
        _ => Insert(size, "u"),
    }
}

/// Makes an edit somewhere.
fn edit_somewhere(peer: &mut Peer, state: &mut u64) -> Result<(), Fail> {
    let size = u32::try_from(peer.doc.text()?.as_slice().len()).map_err(|_| "long")?;
    peer.edit(somewhere(state, size))
}

/// A few edits of two replicas, which the first one has all of: whether one who has the text of any
/// moment can follow.
fn can_follow(alloc: Global, state: &mut u64) -> Result<bool, Fail> {
    let (mut a, mut b) = abc(alloc)?;
    for _ in 0..4 {
        edit_somewhere(&mut a, state)?;
        edit_somewhere(&mut b, state)?;
    }
    a.take_from(&b, 3)?;
    edit_somewhere(&mut a, state)?;
    for from in 0..=a.ops.len() {
        if !follows(&a, from)? {
            return Ok(false);
        }
    }
    Ok(true)
}

#[test]
fn one_who_takes_the_steps_has_what_the_plain_programs_make(rt: HostRuntime) -> Result<(), Fail> {
    let mut state = 7;
    for _ in 0..40 {
        assert!(rt; can_follow(rt.alloc(), &mut state)?);
    }
    Ok(())
}

/// A text of many chunks, which both have.
fn long(alloc: Global) -> Result<(Box<Peer>, Box<Peer>), Fail> {
    let mut a = Peer::new(alloc, 1)?;
    let mut b = Peer::new(alloc, 2)?;
    for _ in 0..12 {
        a.edit(InsertMany(0, 256))?;
    }
    b.take_from(&a, 0)?;
    Ok((a, b))
}

/// Some edits of a long text that two have: whether the second one can follow the first.
fn can_follow_far(alloc: Global, state: &mut u64) -> Result<bool, Fail> {
    let (mut a, mut b) = long(alloc)?;
    for _ in 0..4 {
        let known = a.ops.len();
        let had = characters(alloc, &b.doc.spans()?)?;
        for _ in 0..3 {
            edit_somewhere(&mut a, state)?;
        }
        let now = characters(alloc, &a.doc.spans()?)?;
        if !are_same(&after(alloc, &changes(&a, known)?, had)?, &now) {
            return Ok(false);
        }
        b.take_from(&a, known)?;
    }
    Ok(true)
}

#[test]
fn one_who_has_a_long_text_can_follow(rt: HostRuntime) -> Result<(), Fail> {
    let mut state = 11;
    for _ in 0..2 {
        assert!(rt; can_follow_far(rt.alloc(), &mut state)?);
    }
    Ok(())
}
