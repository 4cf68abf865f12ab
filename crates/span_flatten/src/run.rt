//! Runs of characters with equal marks.
ghost use Rattle.std.specs.Prelude.{◌≡◌, IfOk, OnOk};
ghost use Rattle.op_model.specs.Spans.{with_front};
ghost use Rattle.span_flatten.specs.Runs.{span_of, spans_of_runs};

use op_model::{Marks, Span, Text};
use std::alloc::{AllocError, Global};

/// Characters with equal marks, the last one of the text first.
#[derive(Debug, Drop)]
pub struct Run {
    pub values: Vec<char>,
    pub marks: Marks,
}

/// Puts a character before these runs, which are taken from the last one on: it joins the run
/// behind it, if that has its marks. An error is out of memory (1).
pub(crate) fn put_before(
    alloc: Global,
    value: char,
    marks: Marks,
    runs: &mut Vec<Run>,
) -> Result<(), AllocError>
    ensures { OnOk result (spans_of_runs runs.new.items
        ≡ with_front value marks (spans_of_runs runs.old.items)) }
{
    match runs.last_mut() {
        Some(run) if marks.are_same(&run.marks) => {
            run.values.push(value)?;
        }
        _ => {
            let values = vec![in alloc; value]?;
            runs.push(Run { values, marks })?;
        }
    }
    Ok(())
}

/// The spans of runs that were taken from the last one on. An error is out of memory (1).
pub(crate) fn spans_of(alloc: Global, runs: Vec<Run>) -> Result<Vec<Span>, AllocError>
    ensures { IfOk result (λ spans. spans.items ≡ spans_of_runs runs.items) }
{
    let mut runs = runs;
    runs.reverse();
    let mut spans = Vec::new(alloc);
    for run in runs {
        spans.push(turned(run))?;
    }
    Ok(spans)
}

/// The span of a run.
fn turned(run: Run) -> Span
    ensures { result ≡ span_of run }
{
    let mut values = run.values;
    values.reverse();
    Span {
        text: Text::from(values),
        marks: run.marks,
    }
}
