//! A chunk of cells.
ghost use Rattle.std.specs.Prelude.{◌≡◌, ◌++◌, ◌∷◌, ◌<◌, ◌≤◌, length, take, drop};
ghost use Rattle.std.specs.Prelude.{slice_get, slice_range, slice_set, count_by, not, true, false};
ghost use Rattle.std.specs.Prelude.{Some, IfOk, OnOk, OnErr, MatchOption};
ghost use Rattle.char_sequence.specs.declared.cell.Cell as cell;
ghost use Rattle.char_sequence.specs.Cells.{has_cell, shown as shown_of};
ghost use Rattle.char_sequence.specs.Finding.{has_id_at};

use crate::cell::Cell;
use crate::cell_list::CellList;
use op_ids::OpId;
use std::alloc::{AllocError, Global};
use std::marker::Model;

/// The most cells of a chunk.
pub(crate) const MAX_CHUNK: usize = 512;

/// The fewest cells of a chunk where there are several.
pub(crate) const MIN_CHUNK: usize = 256;

/// From 1 to 512 cells in the order of the text, and how many of them a reader sees.
#[derive(Debug, Drop)]
pub struct Chunk {
    cells: CellList,
    shown: usize,
}

impl Model for Chunk {
    ghost use Rattle.std.specs.Prelude.{List};
    ghost use Rattle.char_sequence.specs.declared.cell.Cell.{Cell};

    ghost Value = { List Cell };

    ghost use Rattle.char_sequence.specs.Chunks.{IsChunk};

    ghost view = { λ c. c.cells };

    ghost invariant = { λ c. IsChunk c.cells c.shown };
}

impl Chunk {
    /// A chunk of these cells, from 1 to 512 of them. An error is out of memory (1).
    pub(crate) fn of(alloc: Global, cells: &[Cell]) -> Result<Chunk, AllocError>
        requires some { 0 < length cells.now }
        requires few { length cells.now ≤ MAX_CHUNK }
        ensures { IfOk result (λ chunk. chunk ≡ cells.now) }
    {
        Ok(Chunk {
            cells: CellList::of(alloc, cells)?,
            shown: shown_in(cells),
        })
    }

    /// The same chunk again. An error is out of memory (1). Its cells are copied as memory.
    pub(crate) fn copy(&self) -> Result<Chunk, AllocError>
        ensures { IfOk result (λ copied. copied ≡ self.now) }
    {
        Ok(Chunk {
            cells: self.cells.copy()?,
            shown: self.shown,
        })
    }

    /// Puts its cells from one on and before another one behind others. An error is out of memory
    /// (1). A step for each.
    pub(crate) fn put_range(
        &self,
        from: usize,
        end: usize,
        into: &mut Vec<Cell>,
    ) -> Result<(), AllocError>
        requires rising { from ≤ end }
        requires within { end ≤ length self.now }
        ensures { OnOk result (into.new.items
            ≡ into.old.items ++ slice_range self.now from end) }
    {
        for j in from..end {
            if let Some(cell) = self.cells.get(j) {
                into.push(cell)?;
            }
        }
        Ok(())
    }

    /// A cell of it, or `None` past the last one. Constant.
    pub(crate) fn cell(&self, j: usize) -> Option<Cell>
        ensures { result ≡ slice_get self.now j }
    {
        self.cells.get(j)
    }

    /// How many of its cells stand before the first one with an id, or `None` where none has it. A
    /// step for each of them.
    pub(crate) fn find(&self, id: &OpId) -> Option<usize>
        ensures { MatchOption result (has_cell self.now id.now ≡ false)
            (λ at. has_id_at (slice_get self.now at) id.now ≡ true) }
    {
        self.cells.find(id)
    }

    /// How many cells it has, tombstones too. Constant.
    pub(crate) fn len(&self) -> usize
        ensures { result ≡ length self.now }
    {
        self.cells.len()
    }

    /// How many of its cells a reader sees. Constant.
    pub(crate) fn shown(&self) -> usize
        ensures shown { result ≡ length (shown_of self.now) }
        ensures few { result ≤ MAX_CHUNK }
    {
        self.shown
    }

    /// Whether it can take one cell more. Constant.
    pub(crate) fn has_room(&self) -> bool
        ensures { result ≡ true → length self.now < MAX_CHUNK }
    {
        self.cells.len() < MAX_CHUNK
    }

    /// Puts a cell before its j-th cell, or behind its last one. An error is out of memory (1),
    /// and leaves it as it was. The cells behind move.
    pub(crate) fn insert(&mut self, j: usize, cell: Cell) -> Result<(), AllocError>
        requires place { j ≤ length self.old }
        requires room { length self.old < MAX_CHUNK }
        ensures put { OnOk result (self.new ≡ take j self.old ++ cell ∷ drop j self.old) }
        ensures err { OnErr result (self.new ≡ self.old) }
    {
        let is_removed = cell.is_removed;
        self.cells.insert(j, cell)?;
        if !is_removed {
            self.shown += 1;
        }
        Ok(())
    }

    /// Makes a cell a tombstone. Constant.
    pub(crate) fn remove(&mut self, j: usize)
        requires { j < length self.old }
        ensures removed { (c : cell.Cell) → slice_get self.old j ≡ Some c
            → self.new ≡ slice_set self.old j (record c { is_removed = true }) }
        ensures len { length self.new ≡ length self.old }
    {
        if let Some(cell) = self.cells.get(j) {
            if !cell.is_removed {
                self.cells.remove(j);
                self.shown -= 1;
            }
        }
    }
}

/// How many of these cells a reader sees. A step for each.
pub(crate) fn shown_in(cells: &[Cell]) -> usize
    ensures { result ≡ count_by (λ c. not c.is_removed) cells.now }
{
    cells.iter().filter(|cell| !cell.is_removed).count()
}
