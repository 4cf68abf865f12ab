//! Spans.
use crate::test_acts::{Look, Shown, spans_of};
use crate::test_names::id;
use char_sequence::Sequence;
use mark_anchors::Anchors;
use op_ids::{Clock, OpId};
use op_model::{Anchor, Body, End, Mark, MarkKey, Marking, Op, Span, Start, Text};
use span_flatten::{spans, spans_slow};
use std::alloc::Global;
use std::test::Fail;

/// The letters that are typed, one after another and again.
const LETTERS: [char; 7] = ['a', 'b', 'c', 'd', 'e', 'f', 'g'];

/// The letter of the text with `k` before it.
fn letter(k: usize) -> char {
    LETTERS[k % 7]
}

/// The characters 1, 2 and 3. In a box, so that what returns early drops a box.
fn three(alloc: Global) -> Result<Box<Sequence>, Fail> {
    let run = [(id(1)?, 'a'), (id(2)?, 'b'), (id(3)?, 'c')];
    let mut sequence = Box::new(alloc, Sequence::new(alloc))?;
    sequence.apply_run(None, &run)?;
    Ok(sequence)
}

/// The characters 1, 2 and 3, of which the first is a tombstone.
fn two_left(alloc: Global) -> Result<Box<Sequence>, Fail> {
    let first = id(1)?;
    let mut sequence = three(alloc)?;
    sequence.apply_remove(first)?;
    Ok(sequence)
}

/// An operation of document 1 that adds strong from a character on, up to an end.
fn strong(alloc: Global, from: OpId, end: End) -> Result<Op, Fail> {
    Ok(Op {
        id: id(100_000)?,
        doc: 1,
        token: None,
        deps: Clock::new(alloc),
        body: Body::AddMark {
            mark: Mark::Strong,
            start: Start::From(Anchor::Before(from)),
            end,
        },
    })
}

/// The anchors after that operation.
fn marked(sequence: &Sequence, from: OpId, end: End) -> Result<Box<Anchors>, Fail> {
    let alloc = sequence.allocator();
    let op = strong(alloc, from, end)?;
    let mut anchors = Box::new(alloc, Anchors::new(alloc))?;
    anchors.apply_mark(&op, sequence)?;
    Ok(anchors)
}

/// The spans, which both programs find.
fn found(sequence: &Sequence, anchors: &Anchors) -> Result<Vec<Span>, Fail> {
    let slow = spans_slow(sequence, anchors)?;
    let fast = spans(sequence, anchors)?;
    if fast.as_slice() != slow.as_slice() {
        return Err(Fail::from("the spans differ"));
    }
    Ok(fast)
}

/// The spans of three characters where strong begins with the second.
fn marked_from_the_second(alloc: Global) -> Result<Vec<Span>, Fail> {
    let second = id(2)?;
    let sequence = three(alloc)?;
    let anchors = marked(&sequence, second, End::OfText)?;
    found(&sequence, &anchors)
}

/// The spans of two characters behind a tombstone.
fn behind_a_tombstone(alloc: Global) -> Result<Vec<Span>, Fail> {
    let sequence = two_left(alloc)?;
    found(&sequence, &Anchors::new(alloc))
}

/// Whether these spans were found.
fn are_shown(alloc: Global, found: Vec<Span>, due: &[Shown<'_>]) -> Result<bool, Fail> {
    Ok(found == spans_of(alloc, due)?)
}

#[test]
fn a_text_is_cut_where_its_marks_change(rt: HostRuntime) -> Result<(), Fail> {
    let spans = marked_from_the_second(rt.alloc())?;
    let due = [Shown("a", Look::Plain), Shown("bc", Look::Strong)];
    assert!(rt; are_shown(rt.alloc(), spans, &due)?);
    Ok(())
}

#[test]
fn tombstones_are_in_no_span(rt: HostRuntime) -> Result<(), Fail> {
    let spans = behind_a_tombstone(rt.alloc())?;
    assert!(rt; are_shown(rt.alloc(), spans, &[Shown("bc", Look::Plain)])?);
    Ok(())
}

/// Mark operations that add strong to the second of three characters, with the counters from 4 to
/// below `end`, as by a tool that marks at each save.
fn marked_at_each_save(alloc: Global, end: usize) -> Result<Vec<Marking>, Fail> {
    let mut markings = Vec::new(alloc);
    for k in 4..end {
        markings.push(Marking {
            id: id(k as u64)?,
            key: MarkKey::Strong,
            mark: Some(Mark::Strong),
            start: Start::From(Anchor::Before(id(2)?)),
            end: End::To(Anchor::After(id(2)?)),
        })?;
    }
    Ok(markings)
}

/// The spans of three characters that were marked so 30,000 times.
fn saved_often(alloc: Global) -> Result<Vec<Span>, Fail> {
    let markings = marked_at_each_save(alloc, 30_004)?;
    let sequence = three(alloc)?;
    found(&sequence, &Anchors::from_markings(markings)?)
}

#[test]
fn a_text_marked_at_each_save_has_its_spans(rt: HostRuntime) -> Result<(), Fail> {
    let spans = saved_often(rt.alloc())?;
    let due = [
        Shown("a", Look::Plain),
        Shown("b", Look::Strong),
        Shown("c", Look::Plain),
    ];
    assert!(rt; are_shown(rt.alloc(), spans, &due)?);
    Ok(())
}

/// A sequence of `count` characters, each of which was typed at the end.
fn typed_at_the_end(alloc: Global, count: usize) -> Result<Box<Sequence>, Fail> {
    let mut sequence = Box::new(alloc, Sequence::new(alloc))?;
    let mut last = None;
    for k in 0..count {
        let id = id(k as u64 + 1)?;
        sequence.apply_insert(id, last, letter(k))?;
        last = Some(id);
    }
    Ok(sequence)
}

/// The same text, each character of which was typed at 0.
fn typed_at_the_start(alloc: Global, count: usize) -> Result<Box<Sequence>, Fail> {
    let mut sequence = Box::new(alloc, Sequence::new(alloc))?;
    for k in 0..count {
        sequence.apply_insert(id(k as u64 + 1)?, None, letter(count - 1 - k))?;
    }
    Ok(sequence)
}

/// Removes every third of `count` characters.
fn thin(sequence: &mut Sequence, count: usize) -> Result<(), Fail> {
    for k in 0..count / 3 {
        let id = sequence.visible(2 * k + 2).ok_or("no character")?;
        sequence.apply_remove(id)?;
    }
    Ok(())
}

/// The anchors after strong was added to the first half of `count` characters that a reader sees.
fn first_half(sequence: &Sequence, count: usize) -> Result<Box<Anchors>, Fail> {
    let first = sequence.visible(0).ok_or("no character")?;
    let middle = sequence.visible(count / 2).ok_or("no character")?;
    marked(sequence, first, End::To(Anchor::Before(middle)))
}

/// Whether both programs find two spans where the first half of `count` characters is strong.
fn has_two_spans(sequence: &Sequence, count: usize) -> Result<bool, Fail> {
    let anchors = first_half(sequence, count)?;
    Ok(found(sequence, &anchors)?.len() == 2)
}

/// The text of `count` characters, every third of which is removed and half of the rest strong; its
/// two spans are found by both programs.
fn half_strong(sequence: &mut Sequence, count: usize) -> Result<Text, Fail> {
    thin(sequence, count)?;
    if !has_two_spans(sequence, count - count / 3)? {
        return Err(Fail::from("not two spans"));
    }
    Ok(sequence.text()?)
}

/// The text of `count` characters that were typed at the end.
fn ended(alloc: Global, count: usize) -> Result<Text, Fail> {
    let mut sequence = typed_at_the_end(alloc, count)?;
    half_strong(&mut sequence, count)
}

/// The text of `count` characters that were typed at 0.
fn started(alloc: Global, count: usize) -> Result<Text, Fail> {
    let mut sequence = typed_at_the_start(alloc, count)?;
    half_strong(&mut sequence, count)
}

/// Whether both ways of typing `count` characters give one text.
fn are_typed_alike(alloc: Global, count: usize) -> Result<bool, Fail> {
    Ok(ended(alloc, count)? == started(alloc, count)?)
}

#[test]
fn texts_about_a_chunk_long_are_typed_alike_both_ways(rt: HostRuntime) -> Result<(), Fail> {
    for count in [511, 512, 513] {
        assert!(rt; are_typed_alike(rt.alloc(), count)?);
    }
    Ok(())
}

#[test]
fn a_text_of_many_chunks_is_typed_alike_both_ways(rt: HostRuntime) -> Result<(), Fail> {
    assert!(rt; are_typed_alike(rt.alloc(), 10_000)?);
    Ok(())
}
