//! The plain search for a character.
ghost use Rattle.std.specs.Prelude.{◌≡◌, Some, MatchOption, true, false};
ghost use Rattle.op_ids.specs.Id.{is_same};
ghost use Rattle.char_sequence.specs.declared.cell.Cell as cell;
ghost use Rattle.char_sequence.specs.Cells.{has_cell};
ghost use Rattle.char_sequence.specs.Finding.{has_id_at};
ghost use Rattle.char_sequence.specs.Links.{cell_at_place};

use crate::cell::Cell;
use crate::cell_list::CellList;
use op_ids::OpId;

/// The place of the cell with an id, counted from 1, or `None` where there is none. A step for each
/// cell.
pub(crate) fn place(cells: &CellList, id: &OpId) -> Option<usize>
    ensures { MatchOption result (has_cell cells.now id.now ≡ false)
        (λ at. (c : cell.Cell) × (cell_at_place cells.now at ≡ Some c)
        × (is_same c.id id.now ≡ true)) }
{
    for i in 0..cells.len() {
        if has_id(cells.get(i), id) {
            return Some(i + 1);
        }
    }
    None
}

/// Whether there is a cell, and it has an id.
pub(crate) fn has_id(cell: Option<Cell>, id: &OpId) -> bool
    ensures { result ≡ has_id_at cell id.now }
{
    match cell {
        Some(cell) => cell.id.is_same(*id),
        None => false,
    }
}
