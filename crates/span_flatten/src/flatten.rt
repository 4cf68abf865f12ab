//! The spans of a document.
ghost use Rattle.std.specs.Prelude.{◌≡◌, ◌+◌, ◌*◌, ◌≤◌, ◌<◌, ℕ, List};
ghost use Rattle.std.specs.Prelude.{Some, take, IfOk, IsErrOf, OnOk};
ghost use Rattle.fixed_numbers.specs.declared.limits.TheConstants.{MAX_LISTED};
ghost use Rattle.char_sequence.specs.Chunks.{cells_of, size_at};
ghost use Rattle.char_sequence.specs.Content.{Holds};
ghost use Rattle.char_sequence.specs.Counting.{count_of};
ghost use Rattle.mark_anchors.specs.Keeping.{AreMarksOf};
ghost use Rattle.op_model.specs.declared.op.Op.{Op};
ghost use Rattle.op_model.specs.Spans.{spans as spans_of_ops};
ghost use Rattle.span_flatten.specs.Listing.{listed, ListTooMany};
ghost use Rattle.span_flatten.specs.Reading.{offset};
ghost use Rattle.span_flatten.specs.Runs.{cell_runs, marks_at, spans_of_runs};

use crate::error::SpansError;
use crate::formatting::marks_of;
use crate::run::{Run, put_before, spans_of};
use crate::sweep::{PlacedChunk, Sweep};
use char_sequence::{Cell, ChunkSize, Sequence};
use mark_anchors::{Anchors, Place};
use op_model::{Span, Ticks};
use std::alloc::{AllocError, Global};

/// The greatest runs of visible characters of a document with equal marks. An answer lists at most
/// 1,048,576 comment ids, one counted in each span that lists it: `Listing` (1) comes only where
/// they would be more, `Memory` (1) where a growth was refused. Costs what `spans_in` does.
pub fn spans(sequence: &Sequence, anchors: &Anchors) -> Result<Vec<Span>, SpansError>
    ensures spans { IfOk result (λ found. (ops : List Op) (doc : ℕ) → Holds sequence.now ops doc
        → AreMarksOf anchors.now ops doc → found.items ≡ spans_of_ops ops doc) }
    ensures few { IfOk result (λ found. listed found.items ≤ MAX_LISTED) }
    ensures listing { IsErrOf result SpansError.Listing → ListTooMany sequence.now anchors.now }
{
    spans_in(sequence, anchors, &mut Ticks::new())
}

/// The same, in one pass: two ticks at the most for each character, tombstones counted, and one at
/// the end. For each character a search by halves among the mark
/// operations; for each edge of one a search among those of its key that have begun and not ended;
/// and what is listed: comments are listed only for a span that begins.
///
/// An answer lists at most 1,048,576 comment ids, one counted in each span that lists it: `Listing`
/// (1) comes only where they would be more, before that span is made, `Memory` (1) where a growth
/// was refused.
pub fn spans_in(
    sequence: &Sequence,
    anchors: &Anchors,
    ticks: &mut Ticks,
) -> Result<Vec<Span>, SpansError>
    ensures spans { IfOk result (λ found. (ops : List Op) (doc : ℕ) → Holds sequence.now ops doc
        → AreMarksOf anchors.now ops doc → found.items ≡ spans_of_ops ops doc) }
    ensures few { IfOk result (λ found. listed found.items ≤ MAX_LISTED) }
    ensures listing { IsErrOf result SpansError.Listing → ListTooMany sequence.now anchors.now }
    ensures ticks { ticks.new ≤ ticks.old + (2 * count_of sequence.now + 1) }
    ensures rising { ticks.old ≤ ticks.new }
{
    let alloc = sequence.allocator();
    let mut sweep = Sweep::new(alloc, anchors.in_order())?;
    let mut i = 0;
    sequence.are_sized();
    while let Some(size) = sequence.chunk(i, ticks) {
        let placed = PlacedChunk { index: i, size };
        sweep.pass_chunk(sequence, anchors, placed, ticks)?;
        i += 1;
    }
    sweep.spans(alloc)
}

/// The same, character by character, however many comment ids are listed. An error is out of
/// memory (1). A copy of the characters, tombstones too; for each visible character a search for
/// both characters of each mark operation, and the square of those about comments that cover it.
pub fn spans_slow(sequence: &Sequence, anchors: &Anchors) -> Result<Vec<Span>, AllocError>
    ensures { IfOk result (λ found. (ops : List Op) (doc : ℕ) → Holds sequence.now ops doc
        → AreMarksOf anchors.now ops doc → found.items ≡ spans_of_ops ops doc) }
{
    let alloc = sequence.allocator();
    let cells = cells(alloc, sequence)?;
    let runs = runs(alloc, &cells, sequence, anchors)?;
    spans_of(alloc, runs)
}

/// The characters of a sequence in the order of the text, tombstones too. An error is out of
/// memory (1).
fn cells(alloc: Global, sequence: &Sequence) -> Result<Vec<Cell>, AllocError>
    ensures { IfOk result (λ found. found.items ≡ cells_of sequence.now) }
{
    let mut ticks = Ticks::new();
    let mut found = Vec::new(alloc);
    let mut i = 0;
    sequence.are_sized();
    while let Some(size) = sequence.chunk(i, &mut ticks) {
        add_chunk(sequence, i, size, &mut found)?;
        i += 1;
    }
    Ok(found)
}

/// The characters of one more chunk, behind those before it. An error is out of memory (1).
fn add_chunk(
    sequence: &Sequence,
    i: usize,
    size: ChunkSize,
    found: &mut Vec<Cell>,
) -> Result<(), AllocError>
    requires there { size_at sequence.now i ≡ Some size }
    requires before { found.old.items ≡ take (offset sequence.now i) (cells_of sequence.now) }
    ensures { OnOk result (found.new.items
        ≡ take (offset sequence.now (i + 1)) (cells_of sequence.now)) }
{
    let mut ticks = Ticks::new();
    for j in 0..size.cells {
        match sequence.cell(i, j, &mut ticks) {
            Some(cell) => found.push(cell)?,
            None => unreachable!(),
        }
    }
    Ok(())
}

/// The greatest runs of the visible ones among the cells of a document, the last one first. An
/// error is out of memory (1).
fn runs(
    alloc: Global,
    cells: &[Cell],
    sequence: &Sequence,
    anchors: &Anchors,
) -> Result<Vec<Run>, AllocError>
    ensures { IfOk result (λ found. (ops : List Op) (doc : ℕ) → Holds sequence.now ops doc
        → AreMarksOf anchors.now ops doc
        → spans_of_runs found.items ≡ cell_runs (marks_at ops doc) 0 cells.now) }
{
    let mut found = Vec::new(alloc);
    let mut k = cells.len();
    while k > 0 {
        k -= 1;
        let cell = &cells[k];
        if !cell.is_removed {
            let set = anchors.set_at(alloc, Place::Before(k), sequence)?;
            let marks = marks_of(alloc, &set)?;
            put_before(alloc, cell.value, marks, &mut found)?;
        }
    }
    Ok(found)
}
