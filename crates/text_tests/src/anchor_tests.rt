//! Where marks begin and end, as `Sequence` has it by `EndsAfter`.
use crate::test_names::id;
use char_sequence::{EndsAfter, Sequence};
use mark_anchors::{Anchors, Place};
use op_ids::Clock;
use op_model::{Anchor, Body, End, MarkKey, Marking, Op, Start};
use std::alloc::Global;
use std::test::Fail;

/// What anchors say of the characters 1 and 2: how many markings there are and how many edges at
/// the second one, and whether one ends after the first, and after the second.
type View = (usize, usize, bool, bool);

/// The characters 1 and 2. In a box, so that what returns early drops a box.
fn two(alloc: Global) -> Result<Box<Sequence>, Fail> {
    let run = [(id(1)?, 'a'), (id(2)?, 'b')];
    let mut sequence = Box::new(alloc, Sequence::new(alloc))?;
    sequence.apply_run(None, &run)?;
    Ok(sequence)
}

/// An operation of document 1 that takes em from the character 1 on, up to an end.
fn plain(alloc: Global, counter: u64, end: End) -> Result<Op, Fail> {
    Ok(Op {
        id: id(counter)?,
        doc: 1,
        token: None,
        deps: Clock::new(alloc),
        body: Body::RemoveMark {
            key: MarkKey::Em,
            start: Start::From(Anchor::Before(id(1)?)),
            end,
        },
    })
}

/// Takes an operation up to an end.
fn apply(anchors: &mut Anchors, sequence: &Sequence, counter: u64, end: End) -> Result<(), Fail> {
    let op = plain(sequence.allocator(), counter, end)?;
    Ok(anchors.apply_mark(&op, sequence)?)
}

/// The anchors after an operation up to each of these ends.
fn applied(sequence: &Sequence, ends: &[(u64, End)]) -> Result<Box<Anchors>, Fail> {
    let alloc = sequence.allocator();
    let mut anchors = Box::new(alloc, Anchors::new(alloc))?;
    for (counter, end) in ends {
        apply(&mut anchors, sequence, *counter, *end)?;
    }
    Ok(anchors)
}

/// A mark operation up to behind the character 2.
fn marking(alloc: Global) -> Result<Marking, Fail> {
    let op = plain(alloc, 3, End::To(Anchor::After(id(2)?)))?;
    Ok(op.marking()?.ok_or("no mark")?)
}

/// The anchors of that mark operation, which is given.
fn given(alloc: Global) -> Result<Anchors, Fail> {
    let mut markings = Vec::new(alloc);
    markings.push(marking(alloc)?)?;
    Ok(Anchors::from_markings(markings)?)
}

fn look(anchors: &Anchors) -> Result<View, Fail> {
    let (first, second) = (id(1)?, id(2)?);
    Ok((
        anchors.in_order().len(),
        anchors.edges_at(second).len(),
        anchors.ends_after(first),
        anchors.ends_after(second),
    ))
}

/// What is seen after an operation up to each of these ends.
fn seen(alloc: Global, ends: &[(u64, End)]) -> Result<View, Fail> {
    let sequence = two(alloc)?;
    let anchors = applied(&sequence, ends)?;
    look(&anchors)
}

/// What is seen of a mark operation that is given.
fn seen_given(alloc: Global) -> Result<View, Fail> {
    look(&given(alloc)?)
}

/// The counters of the mark operations in force at a place.
fn counters_at(sequence: &Sequence, anchors: &Anchors, place: Place) -> Result<Vec<u64>, Fail> {
    let alloc = sequence.allocator();
    let mut counters = Vec::new(alloc);
    for marking in anchors.set_at(alloc, place, sequence)? {
        counters.push(marking.id.counter())?;
    }
    Ok(counters)
}

/// The same after an operation up to the character 2 and one up to the end.
fn in_force(alloc: Global, place: Place) -> Result<Vec<u64>, Fail> {
    let ends = [(3, End::To(Anchor::Before(id(2)?))), (4, End::OfText)];
    let sequence = two(alloc)?;
    let anchors = applied(&sequence, &ends)?;
    counters_at(&sequence, &anchors, place)
}

#[test]
fn ends_are_known_where_marks_end_after(rt: HostRuntime) -> Result<(), Fail> {
    let second = id(2)?;
    let before = (3, End::To(Anchor::Before(second)));
    let after = (4, End::To(Anchor::After(second)));
    assert_eq!(rt; seen(rt.alloc(), &[before])?, (1, 1, false, false));
    assert_eq!(rt; seen(rt.alloc(), &[before, after])?, (2, 2, false, true));
    Ok(())
}

/// The number with which a mark operation on an empty text is refused, or 0.
fn refusal(alloc: Global, op: &Op) -> u8 {
    let sequence = Sequence::new(alloc);
    let mut anchors = Anchors::new(alloc);
    match anchors.apply_mark(op, &sequence) {
        Ok(()) => 0,
        Err(error) => error.number(),
    }
}

#[test]
fn a_mark_on_an_unknown_character_is_refused(rt: HostRuntime) -> Result<(), Fail> {
    let op = plain(rt.alloc(), 3, End::OfText)?;
    assert_eq!(rt; refusal(rt.alloc(), &op), 60);
    Ok(())
}

#[test]
fn mark_operations_in_order_make_the_anchors(rt: HostRuntime) -> Result<(), Fail> {
    assert_eq!(rt; seen_given(rt.alloc())?, (1, 1, false, true));
    Ok(())
}

#[test]
fn mark_operations_are_in_force_from_their_start_to_their_end(rt: HostRuntime) -> Result<(), Fail> {
    for (place, due) in [
        (Place::OfStart, [].as_slice()),
        (Place::Before(0), [3, 4].as_slice()),
        (Place::After(0), [3, 4].as_slice()),
        (Place::Before(1), [4].as_slice()),
        (Place::After(1), [4].as_slice()),
        (Place::Before(2), [].as_slice()),
    ] {
        let found = in_force(rt.alloc(), place)?;
        assert!(rt; found.as_slice() == due, "{found:?} in place of {due:?}");
    }
    Ok(())
}
