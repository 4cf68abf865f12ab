//! Many ends of marks, in chunks.
use crate::test_names::id;
use char_sequence::Sequence;
use mark_anchors::{Anchors, Edge};
use op_ids::{Clock, OpId};
use op_model::{Anchor, Body, End, Mark, MarkKey, Marking, Op, Span, Start};
use span_flatten::spans;
use std::alloc::Global;
use std::test::Fail;

/// How many characters the text has.
const LETTERS: u64 = 200;

/// How many mark operations it has: their edges are many times those that a chunk takes.
const MARKS: u64 = 3_000;

/// The first and the last character of the k-th mark operation: those of a thousand fall, those of
/// another one rise, and then all end at one character.
fn reach(k: u64) -> (u64, u64) {
    match k / 1_000 {
        0 => {
            let at = 200 - k % 199;
            (at, at)
        }
        1 => {
            let at = 1 + k % 199;
            (at, at)
        }
        _ => (1 + k % 149, 150),
    }
}

/// The characters from 1 on.
fn run(alloc: Global) -> Result<Vec<(OpId, char)>, Fail> {
    let mut run = Vec::new(alloc);
    for k in 0..LETTERS {
        run.push((id(k + 1)?, 'a'))?;
    }
    Ok(run)
}

/// Their text.
fn letters(alloc: Global) -> Result<Box<Sequence>, Fail> {
    let run = run(alloc)?;
    let mut sequence = Box::new(alloc, Sequence::new(alloc))?;
    sequence.apply_run(None, &run)?;
    Ok(sequence)
}

/// The k-th mark operation: it adds strong, or takes it.
fn mark(alloc: Global, k: u64) -> Result<Op, Fail> {
    let (first, last) = reach(k);
    let start = Start::From(Anchor::Before(id(first)?));
    let end = End::To(Anchor::After(id(last)?));
    let body = if k % 5 < 3 {
        Body::AddMark {
            mark: Mark::Strong,
            start,
            end,
        }
    } else {
        Body::RemoveMark {
            key: MarkKey::Strong,
            start,
            end,
        }
    };
    Ok(Op {
        id: id(k.wrapping_add(1_000))?,
        doc: 1,
        token: None,
        deps: Clock::new(alloc),
        body,
    })
}

/// Takes the k-th mark operation.
fn apply(anchors: &mut Anchors, sequence: &Sequence, k: u64) -> Result<(), Fail> {
    let op = mark(sequence.allocator(), k)?;
    Ok(anchors.apply_mark(&op, sequence)?)
}

/// The anchors after all mark operations, one by one.
fn applied(sequence: &Sequence) -> Result<Box<Anchors>, Fail> {
    let alloc = sequence.allocator();
    let mut anchors = Box::new(alloc, Anchors::new(alloc))?;
    for k in 0..MARKS {
        apply(&mut anchors, sequence, k)?;
    }
    Ok(anchors)
}

/// The k-th mark operation, as anchors are given it.
fn marking(alloc: Global, k: u64) -> Result<Marking, Fail> {
    let op = mark(alloc, k)?;
    Ok(op.marking()?.ok_or("no mark")?)
}

/// The anchors of all mark operations, which are given.
fn given(alloc: Global) -> Result<Box<Anchors>, Fail> {
    let mut markings = Vec::new(alloc);
    for k in 0..MARKS {
        markings.push(marking(alloc, k)?)?;
    }
    Ok(Box::new(alloc, Anchors::from_markings(markings)?)?)
}

/// At how many ends of mark operations each character stands.
fn ends_at(alloc: Global) -> Result<Vec<usize>, Fail> {
    let mut counts = vec![in alloc; 0; 201]?;
    for k in 0..MARKS {
        let (first, last) = reach(k);
        for letter in [first, last] {
            if let Some(count) = counts.get_mut(letter as usize) {
                *count = usize::wrapping_add(*count, 1);
            }
        }
    }
    Ok(counts)
}

/// Whether a mark operation begins or ends at a character, as an edge of it says.
fn is_at(edge: &Edge, letter: u64) -> bool {
    let (first, last) = reach(edge.marking as u64);
    letter == if edge.is_end { last } else { first }
}

/// Whether at each character the edges are found that there are.
fn finds_all(alloc: Global, anchors: &Anchors) -> Result<bool, Fail> {
    let counts = ends_at(alloc)?;
    for letter in 1..=LETTERS {
        let edges = anchors.edges_at(id(letter)?);
        let as_many = counts.get(letter as usize) == Some(&edges.len());
        if !as_many || !edges.iter().all(|edge| is_at(edge, letter)) {
            return Ok(false);
        }
    }
    Ok(true)
}

/// The spans of the text, if all edges are found.
fn spans_if_found(
    alloc: Global,
    sequence: &Sequence,
    anchors: &Anchors,
) -> Result<Vec<Span>, Fail> {
    if !finds_all(alloc, anchors)? {
        return Err(Fail::from("not all edges"));
    }
    Ok(spans(sequence, anchors)?)
}

/// The spans after all mark operations, one by one.
fn spans_of_applied(alloc: Global) -> Result<Vec<Span>, Fail> {
    let sequence = letters(alloc)?;
    let anchors = applied(&sequence)?;
    spans_if_found(alloc, &sequence, &anchors)
}

/// The spans of all mark operations, which are given.
fn spans_of_given(alloc: Global) -> Result<Vec<Span>, Fail> {
    let sequence = letters(alloc)?;
    let anchors = given(alloc)?;
    spans_if_found(alloc, &sequence, &anchors)
}

#[test]
fn thousands_of_mark_operations_are_found_at_their_characters(rt: HostRuntime) -> Result<(), Fail> {
    assert!(rt; spans_of_applied(rt.alloc())? == spans_of_given(rt.alloc())?);
    Ok(())
}
