//! The mark operations that are in force at a place.
ghost use Rattle.std.specs.Prelude.{◌≡◌, ◌++◌, ◌∷◌, [], ℕ, List, map, IfOk, OnOk};
ghost use Rattle.char_sequence.specs.Content.{Holds};
ghost use Rattle.char_sequence.specs.Counting.{count_of};
ghost use Rattle.mark_anchors.specs.Force.{in_force as in_force_of, number};
ghost use Rattle.mark_anchors.specs.Intervals.{interval_of, place_of};
ghost use Rattle.mark_anchors.specs.Intervals.{place_of_end, place_of_start};
ghost use Rattle.op_model.specs.declared.op.Op.{Op};
ghost use Rattle.op_model.specs.Places.{index_of};
ghost use Rattle.op_model.specs.Walk.{walk};

use crate::place::{Interval, Place};
use char_sequence::Sequence;
use op_ids::OpId;
use op_model::{Anchor, End, Marking, Start, Ticks};
use std::alloc::{AllocError, Global};

/// Of these mark operations those that are in force at a place. An error is out of memory (1). A
/// search for each character that they name, as `Sequence::find` does it.
pub(crate) fn in_force<'a>(
    alloc: Global,
    markings: &'a [Marking],
    place: &Place,
    sequence: &Sequence,
) -> Result<Vec<&'a Marking>, AllocError>
    ensures { IfOk result (λ found. (ops : List Op) (doc : ℕ) → Holds sequence.now ops doc
        → map (λ m. m.now) found.items
        ≡ in_force_of (walk ops doc) (number place.now) markings.now) }
{
    let count = count(sequence);
    let mut found = Vec::new(alloc);
    for marking in markings {
        push(sequence, count, marking, place, &mut found)?;
    }
    Ok(found)
}

/// Puts a mark operation behind others, if it is in force at a place, where it is given how many
/// characters there are. An error is out of memory (1).
fn push<'a>(
    sequence: &Sequence,
    count: usize,
    marking: &'a Marking,
    place: &Place,
    found: &mut Vec<&'a Marking>,
) -> Result<(), AllocError>
    requires { count ≡ count_of sequence.now }
    ensures { OnOk result ((ops : List Op) (doc : ℕ) → Holds sequence.now ops doc
        → map (λ m. m.now) found.new.items ≡ map (λ m. m.now) found.old.items
        ++ in_force_of (walk ops doc) (number place.now) (marking.now ∷ [])) }
{
    if !interval(sequence, count, marking).holds(place) {
        return Ok(());
    }
    found.push(marking)?;
    Ok(())
}

/// The places at which a mark operation is in force.
fn interval(sequence: &Sequence, count: usize, marking: &Marking) -> Interval
    requires { count ≡ count_of sequence.now }
    ensures { (ops : List Op) (doc : ℕ) → Holds sequence.now ops doc
        → result ≡ interval_of (walk ops doc) marking.now }
{
    Interval {
        from: start_place(sequence, count, &marking.start),
        to: end_place(sequence, count, &marking.end),
    }
}

/// Where a mark operation with this start begins.
fn start_place(sequence: &Sequence, count: usize, start: &Start) -> Place
    requires { count ≡ count_of sequence.now }
    ensures { (ops : List Op) (doc : ℕ) → Holds sequence.now ops doc
        → result ≡ place_of_start (walk ops doc) start.now }
{
    match start {
        Start::OfText => Place::OfStart,
        Start::From(anchor) => place(sequence, count, anchor),
    }
}

/// Where a mark operation with this end ends.
fn end_place(sequence: &Sequence, count: usize, end: &End) -> Place
    requires { count ≡ count_of sequence.now }
    ensures { (ops : List Op) (doc : ℕ) → Holds sequence.now ops doc
        → result ≡ place_of_end (walk ops doc) end.now }
{
    match end {
        End::To(anchor) => place(sequence, count, anchor),
        End::OfText => Place::Before(count),
    }
}

/// The place of an anchor.
fn place(sequence: &Sequence, count: usize, anchor: &Anchor) -> Place
    requires { count ≡ count_of sequence.now }
    ensures { (ops : List Op) (doc : ℕ) → Holds sequence.now ops doc
        → result ≡ place_of (walk ops doc) anchor.now }
{
    match anchor {
        Anchor::Before(id) => Place::Before(index(sequence, count, *id)),
        Anchor::After(id) => Place::After(index(sequence, count, *id)),
    }
}

/// How many characters stand before this one; all of them where it isn't there.
fn index(sequence: &Sequence, count: usize, id: OpId) -> usize
    requires { count ≡ count_of sequence.now }
    ensures { (ops : List Op) (doc : ℕ) → Holds sequence.now ops doc
        → result ≡ index_of id (walk ops doc) }
{
    match sequence.find(id) {
        Some(i) => i,
        None => count,
    }
}

/// How many characters a sequence has, tombstones counted. A step for each chunk.
fn count(sequence: &Sequence) -> usize
    ensures { result ≡ count_of sequence.now }
{
    sequence.are_sized();
    let mut ticks = Ticks::new();
    let mut count = 0;
    let mut i = 0;
    while let Some(size) = sequence.chunk(i, &mut ticks) {
        count += size.cells;
        i += 1;
    }
    count
}
