//! Steps of changes, as they stand in rows, and a plain program that takes them.
use crate::test_acts::{Look, span_marks};
use crate::test_documents::Peer;
use crate::test_names::text_of;
use doc_core::Since;
use op_model::{Body, ChangeStep, Marks, Op, Span};
use slow_programs::spans;
use std::alloc::Global;
use std::test::Fail;

/// A step as it stands in a row.
#[derive(Clone, Copy)]
pub(crate) enum Due<'a> {
    Keep(usize),
    Drop(usize),
    Put(&'a str, Look<'a>),
    Mark(usize, Look<'a>),
}

/// A character as a reader has it.
#[derive(Drop)]
pub(crate) struct Seen {
    value: char,
    marks: Marks,
}

/// The steps of a row.
pub(crate) fn steps_of(alloc: Global, due: &[Due<'_>]) -> Result<Vec<ChangeStep>, Fail> {
    let mut steps = Vec::new(alloc);
    for step in due {
        let step = match step {
            Due::Keep(count) => ChangeStep::Keep(*count),
            Due::Drop(count) => ChangeStep::Drop(*count),
            Due::Put(text, look) => ChangeStep::Put(Span {
                text: text_of(alloc, text)?,
                marks: span_marks(alloc, *look)?,
            }),
            Due::Mark(count, look) => ChangeStep::Mark(*count, span_marks(alloc, *look)?),
        };
        steps.push(step)?;
    }
    Ok(steps)
}

/// Whether an operation removes a character that some of these removed before.
fn is_repeat(before: &[Op], op: &Op) -> bool {
    let Body::Remove { target } = &op.body else {
        return false;
    };
    for other in before {
        if matches!(&other.body, Body::Remove { target: old } if *old == *target) {
            return true;
        }
    }
    false
}

/// What came since the first so many operations.
fn since(alloc: Global, ops: &[Op], from: usize) -> Result<Since, Fail> {
    let mut since = Since::new(alloc, 1);
    for (index, op) in ops.iter().enumerate().skip(from).rev() {
        let before = ops.get(..index).ok_or("no operation")?;
        since.take_before(op, is_repeat(before, op))?;
    }
    Ok(since)
}

/// What changed in a peer's document since its list had so many operations.
pub(crate) fn changes(peer: &Peer, from: usize) -> Result<Vec<ChangeStep>, Fail> {
    let since = since(peer.alloc, &peer.ops, from)?;
    Ok(peer.doc.changes(&since)?)
}

/// The characters of spans.
pub(crate) fn characters(alloc: Global, spans: &[Span]) -> Result<Vec<Seen>, Fail> {
    let mut seen = Vec::new(alloc);
    for span in spans {
        for value in span.text.as_slice() {
            let marks = span.marks.copy()?;
            seen.push(Seen {
                value: *value,
                marks,
            })?;
        }
    }
    Ok(seen)
}

/// What a reader has after these steps; those that no step speaks of stay.
pub(crate) fn after(
    alloc: Global,
    steps: &[ChangeStep],
    had: Vec<Seen>,
) -> Result<Vec<Seen>, Fail> {
    let mut rest = had.into_iter();
    let mut now = Vec::new(alloc);
    for step in steps {
        match step {
            ChangeStep::Keep(count) => {
                for _ in 0..*count {
                    now.push(rest.next().ok_or("kept too many")?)?;
                }
            }
            ChangeStep::Drop(count) => {
                for _ in 0..*count {
                    let _ = rest.next().ok_or("dropped too many")?;
                }
            }
            ChangeStep::Put(span) => {
                for value in span.text.as_slice() {
                    let marks = span.marks.copy()?;
                    now.push(Seen {
                        value: *value,
                        marks,
                    })?;
                }
            }
            ChangeStep::Mark(count, marks) => {
                for _ in 0..*count {
                    let value = rest.next().ok_or("marked too many")?.value;
                    let marks = marks.copy()?;
                    now.push(Seen { value, marks })?;
                }
            }
        }
    }
    for left in rest {
        now.push(left)?;
    }
    Ok(now)
}

pub(crate) fn are_same(a: &[Seen], b: &[Seen]) -> bool {
    a.len() == b.len()
        && a.iter()
            .zip(b)
            .all(|(x, y)| x.value == y.value && x.marks.are_same(&y.marks))
}

/// Whether one who takes the steps has what the plain programs make of the list.
pub(crate) fn follows(peer: &Peer, from: usize) -> Result<bool, Fail> {
    let alloc = peer.alloc;
    let before = peer.ops.get(..from).ok_or("no operation")?;
    let had = characters(alloc, &spans(alloc, before, 1)?)?;
    let now = characters(alloc, &spans(alloc, &peer.ops, 1)?)?;
    Ok(are_same(&after(alloc, &changes(peer, from)?, had)?, &now))
}
