//! The cells of a sequence, cut into chunks.
ghost use Rattle.std.specs.Prelude.{◌≤◌, ◌≡◌, ◌++◌, ◌∷◌, [], ◌<◌, ◌+◌, ◌*◌, ◌^◌, length};
ghost use Rattle.std.specs.Prelude.{Some, true, false, IfOk, OnOk, OnErr, MatchOption};
ghost use Rattle.std.proofs.Common.{get_or};
ghost use Rattle.char_sequence.specs.Chunks.{size_at, cell_at, cells_of, before, from, AreChunks};
ghost use Rattle.char_sequence.specs.Chunks.{IsPlace, AreSized};
ghost use Rattle.char_sequence.specs.Cells.{has_cell, shown as shown_of};
ghost use Rattle.char_sequence.specs.Finding.{has_id_at};
ghost use Rattle.char_sequence.specs.declared.cell.Cell as cell;
ghost use Rattle.char_sequence.specs.Sums.{seen_in_group};
ghost use Rattle.char_sequence.specs.declared.chunk.TheConstants.{MAX_CHUNK, MIN_CHUNK};
ghost use Rattle.char_sequence.specs.declared.groups.TheConstants.{GROUP};

use crate::cell::Cell;
use crate::chunk::{Chunk, shown_in};
use crate::chunk_size::ChunkSize;
use crate::cutting::{cut, joined, replace};
use crate::groups::{GROUP, count, count_last, recount};
use crate::place::Place;
use op_ids::OpId;
use op_model::Ticks;
use std::alloc::{AllocError, Global};
use std::marker::Model;

/// The most chunks, so that their cells can be counted; memory ends long before.
const MOST_CHUNKS: usize = 18_014_398_509_481_984;

/// Cells in the order of the text, in chunks of at most 512, so that one more moves few others. A
/// full chunk that is to take a cell is split: what it then has is cut into its first 256 and the
/// rest. Its only readers are `chunk` and `cell`, and by an id `find`.
#[derive(Debug, Drop)]
pub struct Chunks {
    chunks: Vec<Chunk>,
    /// How many of their cells a reader sees.
    shown: usize,
    /// How many of the cells of each whole 64 chunks a reader sees.
    groups: Vec<usize>,
}

impl Model for Chunks {
    ghost use Rattle.std.specs.Prelude.{◌≡◌, ◌≤◌, ◌^◌, length};
    ghost use Rattle.char_sequence.specs.Chunks.{ChunkCells, AreChunks};
    ghost use Rattle.char_sequence.specs.Sums.{seen, AreGroups};

    ghost Value = { ChunkCells };

    ghost view = { λ c. c.chunks.items };

    ghost invariant = { λ c. AreChunks c.chunks.items × (length c.chunks.items ≤ 2 ^ 54)
        × (c.shown ≡ seen c.chunks.items) × AreGroups c.groups.items c.chunks.items };
}

impl Chunks {
    /// No cells. Constant.
    pub(crate) fn new(alloc: Global) -> Chunks
        ensures { result ≡ [] }
    {
        Chunks {
            chunks: Vec::new(alloc),
            shown: 0,
            groups: Vec::new(alloc),
        }
    }

    /// The same chunks again. An error is out of memory (1). A step for each chunk, whose cells are
    /// copied as memory.
    pub(crate) fn copy(&self) -> Result<Chunks, AllocError>
        ensures { IfOk result (λ copied. copied ≡ self.now) }
    {
        let alloc = *self.chunks.allocator();
        Ok(Chunks {
            chunks: copied(alloc, &self.chunks)?,
            shown: self.shown,
            groups: Vec::from_slice(alloc, &self.groups)?,
        })
    }

    /// The allocator that it keeps.
    pub(crate) fn allocator(&self) -> Global {
        *self.chunks.allocator()
    }

    /// How many chunks there are. Constant.
    pub(crate) fn len(&self) -> usize
        ensures { result ≡ length self.now }
    {
        self.chunks.len()
    }

    /// How many whole 64 chunks there are. Constant.
    pub(crate) fn groups(&self) -> usize
        ensures whole { GROUP * result ≤ length self.now }
        ensures rest { length self.now < GROUP * result + GROUP }
    {
        self.groups.len()
    }

    /// How many of the cells of the g-th 64 chunks a reader sees. One tick. Constant.
    pub(crate) fn group(&self, g: usize, ticks: &mut Ticks) -> usize
        requires { GROUP * g + GROUP ≤ length self.now }
        ensures seen { result ≡ seen_in_group self.now g }
        ensures tick { ticks.new ≡ ticks.old + 1 }
    {
        ticks.tick();
        self.groups[g]
    }

    /// How many of its cells a reader sees. Constant.
    pub(crate) fn shown(&self) -> usize
        ensures { result ≡ length (shown_of (cells_of self.now)) }
    {
        self.shown
    }

    /// What holds of all chunks: none is empty, none has over 512 cells, and where there are
    /// several, each has at least 256; and they are at most 2^54. It does nothing.
    pub(crate) fn are_sized(&self)
        ensures chunks { AreChunks self.now }
        ensures many { length self.now ≤ 2 ^ 54 }
    {
        let _ = self.chunks.len();
    }

    /// The size of a chunk, or `None` past the last one. One tick. Constant.
    pub(crate) fn chunk(&self, i: usize, ticks: &mut Ticks) -> Option<ChunkSize>
        ensures size { result ≡ size_at self.now i }
        ensures tick { ticks.new ≡ ticks.old + 1 }
    {
        ticks.tick();
        let chunk = self.chunks.get(i)?;
        Some(ChunkSize {
            cells: chunk.len(),
            shown: chunk.shown(),
        })
    }

    /// A cell of a chunk, or `None` past the last one. One tick. Constant.
    pub(crate) fn cell(&self, i: usize, j: usize, ticks: &mut Ticks) -> Option<Cell>
        ensures cell { result ≡ cell_at self.now i j }
        ensures tick { ticks.new ≡ ticks.old + 1 }
    {
        ticks.tick();
        self.chunks.get(i)?.cell(j)
    }

    /// Where the first cell with an id stands in a chunk, or `None` where none has it there. A step
    /// for each cell before it.
    pub(crate) fn find(&self, i: usize, id: &OpId) -> Option<usize>
        ensures { MatchOption result (has_cell (get_or self.now i []) id.now ≡ false)
            (λ j. has_id_at (cell_at self.now i j) id.now ≡ true) }
    {
        self.chunks.get(i)?.find(id)
    }

    /// Puts cells, one behind the other, at a place: before the j-th cell of the i-th chunk, or
    /// behind its last one. How many chunks there are more: they stand behind the i-th. No cells
    /// change nothing. An error is out of memory (1), and leaves all as it was. It moves at most
    /// the cells of one chunk, and where chunks come, the chunks behind.
    pub(crate) fn insert(&mut self, i: usize, j: usize, cells: &[Cell]) -> Result<usize, AllocError>
        requires { IsPlace self.old i j }
        ensures put { OnOk result (cells_of self.new
            ≡ before self.old i j ++ (cells.now ++ from self.old i j)) }
        ensures err { OnErr result (self.new ≡ self.old) }
    {
        if cells.is_empty() {
            return Ok(0);
        }
        if let [cell] = cells {
            if self.has_room(i) {
                let chunk = &mut self.chunks[i];
                let before = chunk.shown();
                chunk.insert(j, *cell)?;
                let after = chunk.shown();
                self.shown = self.shown - before + after;
                recount(&mut self.groups, i, before, after);
                return Ok(0);
            }
        }
        self.insert_run(i, j, cells)
    }

    /// Whether there is an i-th chunk that can take one cell more. Constant.
    fn has_room(&self, i: usize) -> bool
        ensures { result ≡ true
            → (i < length self.now) × (length (get_or self.now i []) < MAX_CHUNK) }
    {
        match self.chunks.get(i) {
            Some(chunk) => chunk.has_room(),
            None => false,
        }
    }

    /// The same as `insert`: the chunk and the run are joined, and cut anew into chunks that stand
    /// in place of the old one.
    fn insert_run(&mut self, i: usize, j: usize, cells: &[Cell]) -> Result<usize, AllocError>
        requires { IsPlace self.old i j }
        ensures put { OnOk result (cells_of self.new
            ≡ before self.old i j ++ (cells.now ++ from self.old i j)) }
        ensures err { OnErr result (self.new ≡ self.old) }
    {
        let alloc = *self.chunks.allocator();
        let all = joined(alloc, &self.chunks, i, j, cells)?;
        let cut = cut(alloc, &all)?;
        let before = self.chunks.len();
        if cut.len() > MOST_CHUNKS - before {
            return Err(AllocError);
        }
        let kept = if i < before { before - 1 } else { before };
        let mut groups = vec![in alloc; 0; (kept + cut.len()) / GROUP]?;
        replace(&mut self.chunks, i, cut)?;
        count(&mut groups, &self.chunks, &self.groups, i / GROUP);
        self.groups = groups;
        self.shown += shown_in(cells);
        Ok(self.chunks.len().saturating_sub(before))
    }

    /// Puts cells behind all others, as a chunk of their own. An error is out of memory (1), and
    /// leaves all as it was. A step for each of these cells, and 64 steps for each 64th chunk.
    pub(crate) fn append(&mut self, cells: &[Cell]) -> Result<(), AllocError>
        requires sized { AreSized MIN_CHUNK self.old }
        requires many { MIN_CHUNK ≤ length cells.now }
        requires few { length cells.now ≤ MAX_CHUNK }
        ensures put { OnOk result (self.new ≡ self.old ++ cells.now ∷ []) }
        ensures err { OnErr result (self.new ≡ self.old) }
    {
        if self.chunks.len() >= MOST_CHUNKS {
            return Err(AllocError);
        }
        let alloc = *self.chunks.allocator();
        let chunk = Chunk::of(alloc, cells)?;
        self.chunks.reserve(1)?;
        self.groups.reserve(1)?;
        self.shown += chunk.shown();
        self.chunks.push_reserved(chunk);
        count_last(&mut self.groups, &self.chunks);
        Ok(())
    }

    /// The place behind all cells. Constant.
    pub(crate) fn end(&self) -> Place
        ensures place { IsPlace self.now result.chunk result.at }
        ensures before { before self.now result.chunk result.at ≡ cells_of self.now }
        ensures from { from self.now result.chunk result.at ≡ [] }
    {
        match self.chunks.last() {
            Some(last) => Place {
                chunk: self.chunks.len() - 1,
                at: last.len(),
            },
            None => Place { chunk: 0, at: 0 },
        }
    }

    /// Makes a cell a tombstone. Constant.
    pub(crate) fn remove(&mut self, i: usize, j: usize)
        requires { (i < length self.old) × (j < length (get_or self.old i [])) }
        ensures { (c : cell.Cell) → cell_at self.old i j ≡ Some c → cells_of self.new
            ≡ before self.old i j ++ (record c { is_removed = true }) ∷ from self.old i (j + 1) }
    {
        let chunk = &mut self.chunks[i];
        let before = chunk.shown();
        chunk.remove(j);
        let after = chunk.shown();
        self.shown = self.shown - before + after;
        recount(&mut self.groups, i, before, after);
    }
}

/// The same chunks again. An error is out of memory (1).
fn copied(alloc: Global, chunks: &[Chunk]) -> Result<Vec<Chunk>, AllocError>
    ensures { IfOk result (λ copied. copied.items ≡ chunks.now) }
{
    let mut copied = Vec::with_capacity(alloc, chunks.len())?;
    for chunk in chunks {
        copied.push(chunk.copy()?)?;
    }
    Ok(copied)
}
