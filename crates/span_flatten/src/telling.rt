//! Steps that are told from left to right: each joins the last one, if it can.
ghost use Rattle.std.specs.Prelude.{◌≡◌, ℕ, [], ◌∷◌, ◌++◌, IfOk, OnOk};
ghost use Rattle.op_model.specs.declared.change_step.ChangeStep.TheVariants as step;
ghost use Rattle.model_laws.specs.Since.{with_any_last, with_last};
ghost use Rattle.span_flatten.specs.Listing.{listed_any};
ghost use Rattle.span_flatten.specs.Telling.{brought, keeping, turned};

use crate::since::{one_more, sum};
use op_model::{ChangeStep, Marks, Span, Text};
use std::alloc::{AllocError, Global};

/// What is known of a character: whether a reader saw it before and sees it now, and whether it has
/// the marks that it had.
#[derive(Clone, Copy)]
pub struct Known {
    pub was_seen: bool,
    pub is_seen: bool,
    pub are_same: bool,
}

/// Tells what became of one more character. An error is out of memory (1).
pub(crate) fn tell(
    alloc: Global,
    known: Known,
    value: char,
    marks: &Marks,
    steps: &mut Vec<ChangeStep>,
) -> Result<(), AllocError>
    ensures { OnOk result (steps.new.items ≡ with_any_last steps.old.items
        (turned known.was_seen known.is_seen known.are_same marks.now value)) }
{
    match (known.was_seen, known.is_seen) {
        (true, true) if known.are_same => keep(1, steps),
        (true, true) => mark(marks, steps),
        (true, false) => drop_one(steps),
        (false, true) => put(alloc, value, marks, steps),
        (false, false) => Ok(()),
    }
}

/// How many comment ids the step of one character lists.
pub(crate) fn listed(known: Known, marks: &Marks) -> usize
    ensures { (value : ℕ) → result ≡ listed_any
        (turned known.was_seen known.is_seen known.are_same marks.now value) }
{
    match (known.was_seen, known.is_seen) {
        (true, true) if known.are_same => 0,
        (true, false) | (false, false) => 0,
        _ => marks.comments.as_slice().len(),
    }
}

/// So many more characters stay as they are. An error is out of memory (1).
pub(crate) fn keep_all(count: usize, steps: &mut Vec<ChangeStep>) -> Result<(), AllocError>
    ensures { OnOk result (steps.new.items ≡ keeping steps.old.items count) }
{
    if count == 0 {
        return Ok(());
    }
    keep(count, steps)
}

/// The same, for at least one.
fn keep(count: usize, steps: &mut Vec<ChangeStep>) -> Result<(), AllocError>
    ensures { OnOk result (steps.new.items ≡ with_last steps.old.items (step.Keep count)) }
{
    match steps.pop() {
        Some(last) => keep_behind(count, last, steps),
        None => Ok(steps.push(ChangeStep::Keep(count))?),
    }
}

/// The same, after a last step that was taken from the others.
fn keep_behind(
    count: usize,
    last: ChangeStep,
    steps: &mut Vec<ChangeStep>,
) -> Result<(), AllocError>
    ensures { OnOk result (steps.new.items
        ≡ steps.old.items ++ with_last (last ∷ []) (step.Keep count)) }
{
    match last {
        ChangeStep::Keep(kept) => Ok(steps.push(ChangeStep::Keep(sum(kept, count)?))?),
        last => push_both(steps, last, ChangeStep::Keep(count)),
    }
}

/// One more character goes. An error is out of memory (1).
fn drop_one(steps: &mut Vec<ChangeStep>) -> Result<(), AllocError>
    ensures { OnOk result (steps.new.items ≡ with_last steps.old.items (step.Drop 1)) }
{
    match steps.pop() {
        Some(last) => drop_one_behind(last, steps),
        None => Ok(steps.push(ChangeStep::Drop(1))?),
    }
}

/// The same, after a last step that was taken from the others.
fn drop_one_behind(last: ChangeStep, steps: &mut Vec<ChangeStep>) -> Result<(), AllocError>
    ensures { OnOk result (steps.new.items
        ≡ steps.old.items ++ with_last (last ∷ []) (step.Drop 1)) }
{
    match last {
        ChangeStep::Drop(count) => Ok(steps.push(ChangeStep::Drop(one_more(count)?))?),
        last => push_both(steps, last, ChangeStep::Drop(1)),
    }
}

/// One more character stays, with other marks. An error is out of memory (1).
fn mark(marks: &Marks, steps: &mut Vec<ChangeStep>) -> Result<(), AllocError>
    ensures { OnOk result (steps.new.items ≡ with_last steps.old.items (step.Mark 1 marks.now)) }
{
    match steps.pop() {
        Some(last) => mark_behind(marks, last, steps),
        None => Ok(steps.push(ChangeStep::Mark(1, marks.copy()?))?),
    }
}

/// The same, after a last step that was taken from the others.
fn mark_behind(
    marks: &Marks,
    last: ChangeStep,
    steps: &mut Vec<ChangeStep>,
) -> Result<(), AllocError>
    ensures { OnOk result (steps.new.items
        ≡ steps.old.items ++ with_last (last ∷ []) (step.Mark 1 marks.now)) }
{
    match last {
        ChangeStep::Mark(count, held) => {
            if held.are_same(marks) {
                return Ok(steps.push(ChangeStep::Mark(one_more(count)?, held))?);
            }
            push_both(
                steps,
                ChangeStep::Mark(count, held),
                ChangeStep::Mark(1, marks.copy()?),
            )
        }
        last => push_both(steps, last, ChangeStep::Mark(1, marks.copy()?)),
    }
}

/// One more character comes. An error is out of memory (1).
fn put(
    alloc: Global,
    value: char,
    marks: &Marks,
    steps: &mut Vec<ChangeStep>,
) -> Result<(), AllocError>
    ensures { OnOk result (steps.new.items ≡ with_last steps.old.items (brought value marks.now)) }
{
    match steps.pop() {
        Some(last) => put_behind(alloc, value, marks, last, steps),
        None => Ok(steps.push(first(alloc, value, marks)?)?),
    }
}

/// The same, after a last step that was taken from the others.
fn put_behind(
    alloc: Global,
    value: char,
    marks: &Marks,
    last: ChangeStep,
    steps: &mut Vec<ChangeStep>,
) -> Result<(), AllocError>
    ensures { OnOk result (steps.new.items
        ≡ steps.old.items ++ with_last (last ∷ []) (brought value marks.now)) }
{
    match last {
        ChangeStep::Put(span) => {
            if span.marks.are_same(marks) {
                return Ok(steps.push(ChangeStep::Put(with_character(span, value)?))?);
            }
            push_both(steps, ChangeStep::Put(span), first(alloc, value, marks)?)
        }
        last => push_both(steps, last, first(alloc, value, marks)?),
    }
}

/// Puts two steps after others. An error is out of memory (1).
fn push_both(
    steps: &mut Vec<ChangeStep>,
    last: ChangeStep,
    next: ChangeStep,
) -> Result<(), AllocError>
    ensures { OnOk result (steps.new.items ≡ steps.old.items ++ last ∷ next ∷ []) }
{
    steps.push(last)?;
    steps.push(next)?;
    Ok(())
}

/// The step that brings one character. An error is out of memory (1).
fn first(alloc: Global, value: char, marks: &Marks) -> Result<ChangeStep, AllocError>
    ensures { IfOk result (λ step. step ≡ brought value marks.now) }
{
    let values = vec![in alloc; value]?;
    Ok(ChangeStep::Put(Span {
        text: Text::from(values),
        marks: marks.copy()?,
    }))
}

/// A span with one character more after. An error is out of memory (1).
fn with_character(span: Span, value: char) -> Result<Span, AllocError>
    ensures { IfOk result (λ longer.
        longer ≡ record { text = span.text ++ value ∷ []; marks = span.marks }) }
{
    let mut text = span.text;
    let end = text.as_slice().len();
    text.insert(end, value)?;
    Ok(Span {
        text,
        marks: span.marks,
    })
}
