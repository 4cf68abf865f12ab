//! The links of a weave: which character comes after which.
ghost use Rattle.std.specs.Prelude.{◌≡◌, ℕ, ◌≤◌, ◌<◌, List, length, slice_set};
ghost use Rattle.char_sequence.specs.declared.cell.Cell.{Cell};
ghost use Rattle.char_sequence.specs.Links.{cell_at_place, next_of as next_of_place, Leads, Passes};

use crate::cell::Cell;
use crate::cell_list::CellList;

/// The place of the character behind a place in the text, or 0 behind the last one. Constant.
pub(crate) fn next_of(next: &[u32], at: usize) -> u32
    ensures { result ≡ next_of_place next.now at }
{
    match next.get(at) {
        Some(behind) => *behind,
        None => 0,
    }
}

/// The character at a place, counted from 1, or `None` where there is none. Constant.
pub(crate) fn cell_at(cells: &CellList, at: usize) -> Option<Cell>
    ensures { result ≡ cell_at_place cells.now at }
{
    if at == 0 {
        return None;
    }
    cells.get(at - 1)
}

/// The place that a character goes behind: from a place on past all greater ids that follow.
pub(crate) fn past(cells: &CellList, next: &[u32], from: usize, cell: &Cell) -> usize
    ensures { (order : List ℕ) (cs : List Cell) → Leads cells.now next.now from order cs
        → length order ≤ length cells.now → Passes cell.now from order cs result }
{
    let mut at = from;
    for _ in 0..cells.len() {
        let behind = next_of(next, at) as usize;
        let other = match cell_at(cells, behind) {
            Some(other) => other,
            None => return at,
        };
        if !cell.id.is_below(other.id) {
            return at;
        }
        at = behind;
    }
    at
}

/// Links a place to another one.
pub(crate) fn tie(next: &mut Vec<u32>, at: usize, behind: u32)
    ensures { at < length next.old.items
        → next.new.items ≡ slice_set next.old.items at behind }
{
    if at < next.len() {
        next[at] = behind;
    }
}
