//! One pass over the characters of a document.
ghost use Rattle.std.specs.Prelude.{◌≡◌, ◌+◌, ◌≤◌, ◌<◌, ℕ, List, [], ◌∷◌, ◌++◌, length, take};
ghost use Rattle.std.specs.Prelude.{Some, false, map, slice_get, IfOk, IsErrOf, OnOk};
ghost use Rattle.fixed_numbers.specs.declared.limits.TheConstants.{MAX_LISTED};
ghost use Rattle.std.specs.Prelude.{if◌then◌else◌};
ghost use Rattle.char_sequence.specs.declared.cell.Cell as stored;
ghost use Rattle.char_sequence.specs.Chunks.{cells_of, size_at};
ghost use Rattle.mark_anchors.specs.Keeping.{in_order};
ghost use Rattle.span_flatten.specs.Formatting.{marks_in};
ghost use Rattle.span_flatten.specs.Reading.{offset};
ghost use Rattle.span_flatten.specs.Deciding.{Decides, IsNoted};
ghost use Rattle.span_flatten.specs.Listing.{listed};
ghost use Rattle.span_flatten.specs.Picking.{picked};
ghost use Rattle.span_flatten.specs.Runs.{cell_spans};
ghost use Rattle.span_flatten.specs.Sweeping.{forward_span, kept, listed_and, with_back};
ghost use Rattle.span_flatten.specs.Sweeping.{extended, last_comments, HasSameFlags, IsReady, IsSwept, ListsMore};
ghost use Rattle.span_flatten.specs.Sweeping.{is_last_same as is_last_same_of};

use crate::active::Active;
use crate::error::SpansError;
use crate::listing::count_down;
use crate::run::Run;
use char_sequence::{Cell, ChunkSize, Sequence};
use fixed_numbers::limits::MAX_LISTED;
use mark_anchors::{Anchors, Edge};
use op_model::{Marking, Marks, Span, Text, Ticks};
use std::alloc::{AllocError, Global};

/// A chunk of a sequence: which one it is, counted from 0, and its size.
#[derive(Clone, Copy)]
pub struct PlacedChunk {
    pub index: usize,
    pub size: ChunkSize,
}

/// What a pass over the characters of a document knows so far.
#[derive(Drop)]
pub struct Sweep {
    /// The mark operations that have begun and not ended.
    pub active: Active,
    /// The runs so far, in the order of the text.
    pub runs: Vec<Run>,
    /// Whether mark operations began or ended since the last visible character.
    pub is_changed: bool,
    /// How many comment ids further runs may list.
    pub left: usize,
}

impl Sweep {
    /// Before the first character. An error is out of memory (1). Linear in the mark operations.
    pub(crate) fn new(alloc: Global, markings: &[Marking]) -> Result<Sweep, AllocError>
        ensures { IfOk result (λ s. (cells : List stored.Cell) → IsSwept s cells markings.now 0) }
    {
        Ok(Sweep {
            active: Active::new(alloc, markings)?,
            runs: Vec::new(alloc),
            is_changed: true,
            left: MAX_LISTED,
        })
    }

    /// Passes the characters of one more chunk. An error is out of memory, or that the spans would
    /// list too many comment ids (1). A tick for each.
    pub(crate) fn pass_chunk(
        &mut self,
        sequence: &Sequence,
        anchors: &Anchors,
        chunk: PlacedChunk,
        ticks: &mut Ticks,
    ) -> Result<(), SpansError>
        requires there { size_at sequence.now chunk.index ≡ Some chunk.size }
        requires before { IsSwept self.old (cells_of sequence.now) (in_order anchors.now)
            (offset sequence.now chunk.index) }
        ensures swept { OnOk result (IsSwept self.new (cells_of sequence.now)
            (in_order anchors.now) (offset sequence.now (chunk.index + 1))) }
        ensures listing { IsErrOf result SpansError.Listing
            → MAX_LISTED < listed (cell_spans (cells_of sequence.now) (in_order anchors.now)) }
        ensures ticks { ticks.new ≤ ticks.old + chunk.size.cells }
        ensures rising { ticks.old ≤ ticks.new }
    {
        let alloc = sequence.allocator();
        for j in 0..chunk.size.cells {
            match sequence.cell(chunk.index, j, ticks) {
                Some(cell) => self.pass(alloc, &cell, anchors)?,
                None => unreachable!(),
            }
        }
        Ok(())
    }

    /// Passes a character: takes the edges before it, gives it its marks if a reader sees it, and
    /// takes the edges behind it. The errors of `pass_chunk`.
    fn pass(&mut self, alloc: Global, cell: &Cell, anchors: &Anchors) -> Result<(), SpansError>
        ensures passed { OnOk result ((cells : List stored.Cell) (k : ℕ)
            → slice_get cells k ≡ Some cell.now → IsSwept self.old cells (in_order anchors.now) k
            → IsSwept self.new cells (in_order anchors.now) (k + 1)) }
        ensures listing { IsErrOf result SpansError.Listing
            → (cells : List stored.Cell) (k : ℕ) → slice_get cells k ≡ Some cell.now
            → IsSwept self.old cells (in_order anchors.now) k
            → MAX_LISTED < listed (cell_spans cells (in_order anchors.now)) }
    {
        anchors.are_edges();
        let markings = anchors.in_order();
        let edges = anchors.edges_at(cell.id);
        self.is_changed = is_changed(self.is_changed, edges);
        self.active.take(alloc, edges, false, markings)?;
        self.see(alloc, cell, markings)?;
        self.is_changed = is_changed(self.is_changed, edges);
        Ok(self.active.take(alloc, edges, true, markings)?)
    }

    /// A character, which a reader sees unless it is a tombstone, with the marks of the mark
    /// operations that have begun and not ended: they are looked at only if these changed. The
    /// errors of `pass_chunk`.
    fn see(&mut self, alloc: Global, cell: &Cell, markings: &[Marking]) -> Result<(), SpansError>
        ensures seen { OnOk result (IsReady self.old markings.now
            → map forward_span self.new.runs.items
            ≡ (if cell.now.is_removed then map forward_span self.old.runs.items
            else with_back cell.now.value (marks_in (picked markings.now (kept self.old.active)))
            (map forward_span self.old.runs.items))) }
        ensures ready { OnOk result (IsReady self.old markings.now
            → IsReady self.new markings.now) }
        ensures few { OnOk result (listed_and self.new.runs.items self.new.left
            ≡ listed_and self.old.runs.items self.old.left) }
        ensures listing { IsErrOf result SpansError.Listing
            → (cell.now.is_removed ≡ false) × ListsMore self.old markings.now cell.now.value }
        ensures active { HasSameFlags self.old.active self.new.active }
    {
        if cell.is_removed {
            return Ok(());
        }
        if !self.is_changed {
            return join(cell.value, &mut self.runs);
        }
        self.show_changed(alloc, cell.value, markings)
    }

    /// A character that a reader sees, where mark operations changed: it joins the last run, if
    /// that has its marks, else it begins one. The comments are listed only then. An error is out
    /// of memory (1), or that more are listed than may be.
    fn show_changed(
        &mut self,
        alloc: Global,
        value: char,
        markings: &[Marking],
    ) -> Result<(), SpansError>
        ensures shown { OnOk result (IsReady self.old markings.now
            → map forward_span self.new.runs.items
            ≡ with_back value (marks_in (picked markings.now (kept self.old.active)))
            (map forward_span self.old.runs.items)) }
        ensures ready { OnOk result (IsReady self.old markings.now
            → IsReady self.new markings.now) }
        ensures few { OnOk result (listed_and self.new.runs.items self.new.left
            ≡ listed_and self.old.runs.items self.old.left) }
        ensures listing { IsErrOf result SpansError.Listing
            → ListsMore self.old markings.now value }
        ensures active { HasSameFlags self.old.active self.new.active }
    {
        self.is_changed = false;
        if is_last_same(&self.runs, &self.active, markings) {
            return join(value, &mut self.runs);
        }
        let marks = self.active.marks(alloc, markings)?;
        begin_run(alloc, value, marks, &mut self.runs, &mut self.left)?;
        self.active.note();
        Ok(())
    }

    /// The spans. An error is out of memory (1).
    pub(crate) fn spans(self, alloc: Global) -> Result<Vec<Span>, SpansError>
        ensures spans { IfOk result (λ spans. spans.items ≡ map forward_span self.runs.items) }
        ensures memory { IsErrOf result SpansError.Listing → ⊥ }
    {
        Ok(spans_of(alloc, self.runs)?)
    }
}

/// Whether mark operations changed before, or do so at these edges.
fn is_changed(was: bool, edges: &[Edge]) -> bool
    ensures { result ≡ false → (was ≡ false) × (edges.now ≡ []) }
{
    if edges.is_empty() {
        return was;
    }
    true
}

/// Puts a character behind these runs as one more, whose comment ids are counted first. An error is
/// out of memory (1), or that they are more than may yet be listed.
fn begin_run(
    alloc: Global,
    value: char,
    marks: Marks,
    runs: &mut Vec<Run>,
    left: &mut usize,
) -> Result<(), SpansError>
    ensures begun { OnOk result (map forward_span runs.new.items ≡ map forward_span runs.old.items
        ++ record { text = value ∷ []; marks = marks } ∷ []) }
    ensures few { OnOk result (listed_and runs.new.items left.new
        ≡ listed_and runs.old.items left.old) }
    ensures listing { IsErrOf result SpansError.Listing → left.old < length marks.comments }
{
    count_down(marks.comments.as_slice().len(), left)?;
    Ok(push_run(alloc, value, marks, runs)?)
}

/// Puts a character behind these runs as one more. An error is out of memory (1).
fn push_run(alloc: Global, value: char, marks: Marks, runs: &mut Vec<Run>) -> Result<(), AllocError>
    ensures { OnOk result (map forward_span runs.new.items ≡ map forward_span runs.old.items
        ++ record { text = value ∷ []; marks = marks } ∷ []) }
{
    let values = vec![in alloc; value]?;
    runs.push(Run { values, marks })?;
    Ok(())
}

/// Whether the last of these runs has the marks of the mark operations in force.
fn is_last_same(runs: &[Run], active: &Active, markings: &[Marking]) -> bool
    ensures { Decides active.now.deciding markings.now (kept active.now)
        → IsNoted active.now.deciding.comments (last_comments (map forward_span runs.now))
        → result ≡ is_last_same_of (marks_in (picked markings.now (kept active.now)))
        (map forward_span runs.now) }
{
    match runs.last() {
        Some(run) => active.are_marks(&run.marks, markings),
        None => false,
    }
}

/// Puts a character behind the last of these runs. An error is out of memory (1).
fn join(value: char, runs: &mut Vec<Run>) -> Result<(), SpansError>
    ensures joined { OnOk result (map forward_span runs.new.items
        ≡ extended value (map forward_span runs.old.items)) }
    ensures memory { IsErrOf result SpansError.Listing → ⊥ }
{
    Ok(extend(value, runs)?)
}

/// The same, of which the only error is out of memory.
fn extend(value: char, runs: &mut Vec<Run>) -> Result<(), AllocError>
    ensures { OnOk result (map forward_span runs.new.items
        ≡ extended value (map forward_span runs.old.items)) }
{
    if let Some(run) = runs.last_mut() {
        run.values.push(value)?;
    }
    Ok(())
}

/// The spans of runs. An error is out of memory (1).
fn spans_of(alloc: Global, runs: Vec<Run>) -> Result<Vec<Span>, AllocError>
    ensures { IfOk result (λ spans. spans.items ≡ map forward_span runs.items) }
{
    let mut spans = Vec::new(alloc);
    for run in runs {
        spans.push(span_of(run))?;
    }
    Ok(spans)
}

/// The span of a run.
fn span_of(run: Run) -> Span
    ensures { result ≡ forward_span run }
{
    Span {
        text: Text::from(run.values),
        marks: run.marks,
    }
}
