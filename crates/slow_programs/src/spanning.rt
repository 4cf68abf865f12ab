//! The spans, character by character.
ghost use Rattle.std.specs.Prelude.{◌≡◌, IfOk, OnOk};
ghost use Rattle.slow_programs.specs.Joining.{joins_first_of};
ghost use Rattle.op_model.specs.Spans.{with_front, spans as spans_of};

use crate::formatting::{markings, marks_of};
use crate::order::walk;
use crate::reading::is_removed;
use op_model::{Marks, Op, Span, Text};
use std::alloc::{AllocError, Global};

/// The greatest runs of visible characters of a document with equal marks. An error is out of
/// memory (1).
pub fn spans(alloc: Global, ops: &[Op], doc: u32) -> Result<Vec<Span>, AllocError>
    ensures { IfOk result (λ found. found.items ≡ spans_of ops.now doc) }
{
    let walked = walk(alloc, ops, doc)?;
    let markings = markings(alloc, ops, doc)?;
    let mut found = Vec::new(alloc);
    let mut k = walked.len();
    while k > 0 {
        k -= 1;
        let character = &walked[k];
        if !is_removed(ops, doc, character) {
            let marks = marks_of(alloc, &walked, &markings, k)?;
            push_front(alloc, character.value, marks, &mut found)?;
        }
    }
    Ok(found)
}

fn push_front(
    alloc: Global,
    value: char,
    marks: Marks,
    spans: &mut Vec<Span>,
) -> Result<(), AllocError>
    ensures { OnOk result (spans.new.items ≡ with_front value marks spans.old.items) }
{
    if joins_first(&marks, spans) {
        let first = &mut spans[0];
        first.text.insert(0, value)?;
        return Ok(());
    }
    let text = Text::from(vec![in alloc; value]?);
    spans.insert(0, Span { text, marks })?;
    Ok(())
}

/// Whether there is a first span, and it has these marks.
fn joins_first(marks: &Marks, spans: &[Span]) -> bool
    ensures { result ≡ joins_first_of marks.now spans.now }
{
    match spans {
        [] => false,
        [first, ..] => marks.are_same(&first.marks),
    }
}
