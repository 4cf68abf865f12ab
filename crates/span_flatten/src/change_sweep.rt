//! What changed in a document, told chunk by chunk.
ghost use Rattle.std.specs.Prelude.{◌≡◌, ◌≤◌, ◌+◌, ℕ, List, Some, false, not, length, slice_get, IfOk, OnOk};
ghost use Rattle.char_sequence.specs.declared.cell.Cell as stored;
ghost use Rattle.char_sequence.specs.Chunks.{cells_of, size_at, ChunkCells};
ghost use Rattle.mark_anchors.specs.Keeping.{in_order};
ghost use Rattle.model_laws.specs.Since.{with_any_last};
ghost use Rattle.op_model.specs.Spans.{is_same_marks};
ghost use Rattle.span_flatten.specs.Listing.{listed_steps};
ghost use Rattle.span_flatten.specs.Passing.{marks_by, IsDecided, IsOnWay, IsPassed, IsPlan};
ghost use Rattle.span_flatten.specs.Reading.{offset};
ghost use Rattle.span_flatten.specs.Since.{older, was_seen};
ghost use Rattle.span_flatten.specs.declared.since.Since as noted;
ghost use Rattle.span_flatten.specs.Telling.{keeping, turned};

use crate::error::SpansError;
use crate::listing::count_down;
use crate::marked::Marked;
use crate::plan::Plan;
use crate::since::Since;
use crate::sweep::PlacedChunk;
use crate::telling::{Known, keep_all, listed, tell};
use char_sequence::{Cell, Sequence};
use fixed_numbers::limits::MAX_LISTED;
use mark_anchors::Anchors;
use op_model::{ChangeStep, Marking, Ticks};
use std::alloc::{AllocError, Global};

/// What a pass over the characters of a document knows so far of what changed.
#[derive(Drop)]
pub struct ChangeSweep {
    /// The marks, before and now.
    pub marked: Marked,
    /// Whether they are those at the next character.
    pub is_here: bool,
    /// The steps so far, in the order of the text.
    pub steps: Vec<ChangeStep>,
    /// How many comment ids further steps may list.
    pub left: usize,
}

impl ChangeSweep {
    /// Before the first character. An error is out of memory (1). Linear in the mark operations.
    pub(crate) fn new(
        alloc: Global,
        since: &Since,
        markings: &[Marking],
    ) -> Result<ChangeSweep, AllocError>
        ensures { IfOk result (λ s. (cells : List stored.Cell)
            → IsOnWay s since.now cells markings.now 0) }
    {
        Ok(ChangeSweep {
            marked: Marked::new(alloc, since.older(markings), markings)?,
            is_here: true,
            steps: Vec::new(alloc),
            left: MAX_LISTED,
        })
    }

    /// Tells what changed in one more chunk. Of a quiet one all visible characters stay: none of
    /// them is read. An error is out of memory (1), or that more comment ids are listed than may
    /// be.
    pub(crate) fn step(
        &mut self,
        sequence: &Sequence,
        anchors: &Anchors,
        since: &Since,
        plan: &Plan,
        chunk: PlacedChunk,
    ) -> Result<(), SpansError>
        requires there { size_at sequence.now chunk.index ≡ Some chunk.size }
        requires plan { IsPlan plan.now sequence.now since.now (in_order anchors.now) }
        requires before { IsOnWay self.old since.now (cells_of sequence.now)
            (in_order anchors.now) (offset sequence.now chunk.index) }
        ensures told { OnOk result (IsOnWay self.new since.now (cells_of sequence.now)
            (in_order anchors.now) (offset sequence.now (chunk.index + 1))) }
    {
        let alloc = sequence.allocator();
        let markings = anchors.in_order();
        let past = since.older(markings);
        if plan.is_quiet(past.len(), chunk.index) {
            return Ok(self.skip(chunk.size.shown)?);
        }
        self.enter(alloc, plan, past, markings, chunk.index)?;
        self.pass_chunk(sequence, anchors, since, chunk)?;
        self.is_here = true;
        Ok(())
    }

    /// All visible characters of a chunk stay, so many. An error is out of memory (1).
    fn skip(&mut self, count: usize) -> Result<(), AllocError>
        ensures told { OnOk result (self.new.steps.items ≡ keeping self.old.steps.items count) }
        ensures here { self.new.is_here ≡ false }
        ensures left { self.new.left ≡ self.old.left }
    {
        self.is_here = false;
        keep_all(count, &mut self.steps)
    }

    /// At the beginning of a chunk: the marks are looked up, if those before it were skipped. An
    /// error is out of memory (1).
    fn enter(
        &mut self,
        alloc: Global,
        plan: &Plan,
        past: &[Marking],
        markings: &[Marking],
        chunk: usize,
    ) -> Result<(), AllocError>
        requires { length past.now ≤ length plan.now.spots.items }
        ensures { OnOk result ((held : ChunkCells) (since : noted.Since)
            → past.now ≡ older since markings.now → IsPlan plan.now held since markings.now
            → chunk ≤ length held
            → IsOnWay self.old since (cells_of held) markings.now (offset held chunk)
            → IsPassed self.new since (cells_of held) markings.now (offset held chunk)) }
    {
        if self.is_here {
            return Ok(());
        }
        self.marked = Marked::at(alloc, &plan.spots, past, markings, chunk)?;
        Ok(())
    }

    /// Passes the characters of one more chunk. The errors of `step`.
    fn pass_chunk(
        &mut self,
        sequence: &Sequence,
        anchors: &Anchors,
        since: &Since,
        chunk: PlacedChunk,
    ) -> Result<(), SpansError>
        requires there { size_at sequence.now chunk.index ≡ Some chunk.size }
        requires before { IsPassed self.old since.now (cells_of sequence.now)
            (in_order anchors.now) (offset sequence.now chunk.index) }
        ensures passed { OnOk result (IsPassed self.new since.now (cells_of sequence.now)
            (in_order anchors.now) (offset sequence.now (chunk.index + 1))) }
    {
        let alloc = sequence.allocator();
        let ticks = &mut Ticks::new();
        for j in 0..chunk.size.cells {
            match sequence.cell(chunk.index, j, ticks) {
                Some(cell) => self.pass(alloc, &cell, anchors, since)?,
                None => unreachable!(),
            }
        }
        Ok(())
    }

    /// Passes a character: takes the edges before it, tells what became of it, and takes the edges
    /// after it. The errors of `step`.
    fn pass(
        &mut self,
        alloc: Global,
        cell: &Cell,
        anchors: &Anchors,
        since: &Since,
    ) -> Result<(), SpansError>
        ensures { OnOk result ((cells : List stored.Cell) (k : ℕ)
            → slice_get cells k ≡ Some cell.now
            → IsPassed self.old since.now cells (in_order anchors.now) k
            → IsPassed self.new since.now cells (in_order anchors.now) (k + 1)) }
    {
        anchors.are_edges();
        let markings = anchors.in_order();
        let past = since.older(markings);
        let edges = anchors.edges_at(cell.id);
        self.marked.take(alloc, edges, false, past, markings)?;
        self.see(alloc, cell, since, past, markings)?;
        self.marked.take(alloc, edges, true, past, markings)?;
        Ok(())
    }

    /// Tells what became of a character; its marks are looked at only if a reader sees it. What
    /// they list is counted, where a step begins. The errors of `step`.
    fn see(
        &mut self,
        alloc: Global,
        cell: &Cell,
        since: &Since,
        past: &[Marking],
        markings: &[Marking],
    ) -> Result<(), SpansError>
        ensures told { OnOk result (IsDecided self.old.marked past.now markings.now
            → self.new.steps.items ≡ with_any_last self.old.steps.items
            (turned (was_seen since.now cell.now) (not cell.now.is_removed)
            (is_same_marks (marks_by self.old.marked.past past.now)
            (marks_by self.old.marked.present markings.now))
            (marks_by self.old.marked.present markings.now) cell.now.value)) }
        ensures decided { OnOk result (IsDecided self.old.marked past.now markings.now
            → IsDecided self.new.marked past.now markings.now) }
        ensures few { OnOk result (listed_steps self.new.steps.items + self.new.left
            ≡ listed_steps self.old.steps.items + self.old.left) }
        ensures past { self.new.marked.past ≡ self.old.marked.past }
        ensures present { self.new.marked.present ≡ self.old.marked.present }
    {
        if !cell.is_removed {
            self.marked.look(alloc, past, markings)?;
        }
        let known = Known {
            was_seen: since.has_seen(cell),
            is_seen: !cell.is_removed,
            are_same: self.marked.are_same,
        };
        let count = self.steps.len();
        tell(
            alloc,
            known,
            cell.value,
            &self.marked.marks,
            &mut self.steps,
        )?;
        if self.steps.len() > count {
            count_down(listed(known, &self.marked.marks), &mut self.left)?;
        }
        Ok(())
    }
    /// The steps.
    pub(crate) fn into_steps(self) -> Vec<ChangeStep>
        ensures { result.items ≡ self.steps.items }
    {
        self.steps
    }
}
