//! Cells in twelve bytes each.
ghost use Rattle.std.specs.Prelude.{◌≡◌, ◌≤◌, ◌<◌, ◌++◌, ◌∷◌, List, [], Some, length, take, drop};
ghost use Rattle.std.specs.Prelude.{slice_get, slice_set, true, false, IfOk, OnOk, OnErr, MatchOption};
ghost use Rattle.char_sequence.specs.declared.cell.Cell as cell;
ghost use Rattle.char_sequence.specs.Cells.{has_cell};
ghost use Rattle.char_sequence.specs.Finding.{has_id_at};
ghost use Rattle.char_sequence.specs.Packed.{unpacked, IsPacked, Grows};

use crate::cell::Cell;
use crate::packed_cell::PackedCell;
use crate::search::has_id;
use op_ids::{OpId, ReplicaId};
use std::alloc::{AllocError, Global};
use std::marker::Model;

/// The greatest index of a replica.
const MAX_MAKER: usize = 255;

/// Cells, one behind the other, in twelve bytes each, where a `Cell` takes 32: the replicas of
/// their ids are held apart, each once. At most 256 replicas, more than a store has. Contracts see
/// the cells.
#[derive(Debug, Drop)]
pub struct CellList {
    cells: Vec<PackedCell>,
    /// The replicas of the ids.
    makers: Vec<ReplicaId>,
}

impl Model for CellList {
    ghost use Rattle.std.specs.Prelude.{List, map};
    ghost use Rattle.std.specs.List.{All};
    ghost use Rattle.char_sequence.specs.declared.cell.Cell.{Cell};

    ghost Value = { List Cell };

    ghost use Rattle.char_sequence.specs.Packed.{unpacked, IsPacked};

    ghost view = { λ l. map (unpacked l.makers.items) l.cells.items };

    ghost invariant = { λ l. All (IsPacked l.makers.items) l.cells.items };
}

impl CellList {
    /// No cells. Takes no memory.
    pub(crate) fn new(alloc: Global) -> CellList
        ensures { result ≡ [] }
    {
        CellList {
            cells: Vec::new(alloc),
            makers: Vec::new(alloc),
        }
    }

    /// These cells, with room for no more. An error is out of memory (1). A step for each.
    pub(crate) fn of(alloc: Global, cells: &[Cell]) -> Result<CellList, AllocError>
        ensures { IfOk result (λ list. list ≡ cells.now) }
    {
        let mut list = CellList {
            cells: Vec::with_capacity(alloc, cells.len())?,
            makers: Vec::new(alloc),
        };
        for cell in cells {
            list.push(*cell)?;
        }
        Ok(list)
    }

    /// The same cells again, with room for no more. An error is out of memory (1). The cells are
    /// copied as memory, and so are their replicas.
    pub(crate) fn copy(&self) -> Result<CellList, AllocError>
        ensures { IfOk result (λ copied. copied ≡ self.now) }
    {
        let alloc = *self.cells.allocator();
        Ok(CellList {
            cells: Vec::from_slice(alloc, &self.cells)?,
            makers: Vec::from_slice(alloc, &self.makers)?,
        })
    }

    /// How many cells. Constant.
    pub(crate) fn len(&self) -> usize
        ensures { result ≡ length self.now }
    {
        self.cells.len()
    }

    /// A cell, or `None` past the last one. Constant.
    pub(crate) fn get(&self, i: usize) -> Option<Cell>
        ensures { result ≡ slice_get self.now i }
    {
        let packed = self.cells.get(i)?;
        Some(Cell {
            id: OpId::new(packed.counter(), self.makers[packed.maker as usize]),
            value: packed.value,
            is_removed: packed.is_removed,
        })
    }

    /// How many cells stand before the first one with an id, or `None` where none has it. A step
    /// for each of them.
    pub(crate) fn find(&self, id: &OpId) -> Option<usize>
        ensures { MatchOption result (has_cell self.now id.now ≡ false)
            (λ at. has_id_at (slice_get self.now at) id.now ≡ true) }
    {
        let counter = id.counter();
        for i in 0..self.cells.len() {
            if self.cells[i].may_have(counter) && has_id(self.get(i), id) {
                return Some(i);
            }
        }
        None
    }

    /// Puts a cell behind all others. An error is out of memory (1), and leaves them as they were.
    pub(crate) fn push(&mut self, cell: Cell) -> Result<(), AllocError>
        ensures put { OnOk result (self.new ≡ self.old ++ cell ∷ []) }
        ensures err { OnErr result (self.new ≡ self.old) }
    {
        let packed = pack(&mut self.makers, &cell)?;
        self.cells.push(packed)?;
        Ok(())
    }

    /// Puts a cell before the i-th one, or behind the last one. An error is out of memory (1), and
    /// leaves them as they were. The cells behind move.
    pub(crate) fn insert(&mut self, i: usize, cell: Cell) -> Result<(), AllocError>
        requires { i ≤ length self.old }
        ensures put { OnOk result (self.new ≡ take i self.old ++ cell ∷ drop i self.old) }
        ensures err { OnErr result (self.new ≡ self.old) }
    {
        let packed = pack(&mut self.makers, &cell)?;
        self.cells.insert(i, packed)?;
        Ok(())
    }

    /// Makes a cell a tombstone. Constant.
    pub(crate) fn remove(&mut self, i: usize)
        requires { i < length self.old }
        ensures removed { (c : cell.Cell) → slice_get self.old i ≡ Some c
            → self.new ≡ slice_set self.old i (record c { is_removed = true }) }
        ensures len { length self.new ≡ length self.old }
    {
        let cell = &mut self.cells[i];
        cell.is_removed = true;
    }
}

/// A packed cell, whose replica is one of these or put behind them. An error is out of memory (1).
/// A step for each replica.
fn pack(makers: &mut Vec<ReplicaId>, cell: &Cell) -> Result<PackedCell, AllocError>
    ensures grows { Grows makers.old.items makers.new.items }
    ensures packed { IfOk result (λ p. IsPacked makers.new.items p
        × (unpacked makers.new.items p ≡ cell.now)) }
{
    let maker = index_of(makers, cell.id.replica())?;
    Ok(PackedCell::new(cell, maker))
}

/// Which of these replicas one is; it is put behind them, if none is. An error is out of memory
/// (1). A step for each.
fn index_of(makers: &mut Vec<ReplicaId>, replica: ReplicaId) -> Result<u8, AllocError>
    ensures grows { Grows makers.old.items makers.new.items }
    ensures there { IfOk result (λ at. slice_get makers.new.items at ≡ Some replica) }
{
    let at = match makers.iter().position(|maker| *maker == replica) {
        Some(at) => at,
        None => makers.len(),
    };
    if at > MAX_MAKER {
        return Err(AllocError);
    }
    if at == makers.len() {
        makers.push(replica)?;
    }
    Ok(at as u8)
}
