//! Cells one after another.
ghost use Rattle.std.specs.Prelude.{◌≡◌, ◌++◌, ◌∷◌, [], MatchOption, IfOk, OnOk};
ghost use Rattle.char_sequence.specs.Cells.{first_removed, shown_values};
ghost use Rattle.char_sequence.specs.Chunks.{cells_of, from as from_of, IsPlace};
ghost use Rattle.char_sequence.specs.Reading.{Passes};

use crate::cell::Cell;
use crate::chunks::Chunks;
use crate::place::Place;
use op_ids::OpId;
use op_model::Ticks;
use std::alloc::AllocError;

/// The first cell from a place on, and the place behind it; `None` at the end.
pub(crate) fn next(chunks: &Chunks, place: &Place) -> Option<(Cell, Place)>
    requires { IsPlace chunks.now place.now.chunk place.now.at }
    ensures { MatchOption result (from_of chunks.now place.now.chunk place.now.at ≡ [])
        (λ found. Passes chunks.now place.now found.0 found.1) }
{
    chunks.are_sized();
    let ticks = &mut Ticks::new();
    if let Some(cell) = chunks.cell(place.chunk, place.at, ticks) {
        let behind = Place {
            chunk: place.chunk,
            at: place.at + 1,
        };
        return Some((cell, behind));
    }
    match chunks.cell(place.chunk + 1, 0, ticks) {
        Some(cell) => Some((
            cell,
            Place {
                chunk: place.chunk + 1,
                at: 1,
            },
        )),
        None => None,
    }
}

/// The ids of the tombstones from a place on. An error is out of memory (1).
pub(crate) fn tombstones(chunks: &Chunks, from: &Place) -> Result<Vec<OpId>, AllocError>
    requires { IsPlace chunks.now from.now.chunk from.now.at }
    ensures { IfOk result (λ found. found.items
        ≡ first_removed (from_of chunks.now from.now.chunk from.now.at)) }
{
    let mut found = Vec::new(chunks.allocator());
    let mut at = *from;
    while let Some((cell, behind)) = next(chunks, &at) {
        if !cell.is_removed {
            return Ok(found);
        }
        found.push(cell.id)?;
        at = behind;
    }
    Ok(found)
}

/// The values of the cells that a reader sees. An error is out of memory (1).
pub(crate) fn values(chunks: &Chunks) -> Result<Vec<char>, AllocError>
    ensures { IfOk result (λ found. found.items ≡ shown_values (cells_of chunks.now)) }
{
    let mut found = Vec::new(chunks.allocator());
    let mut at = Place { chunk: 0, at: 0 };
    while let Some((cell, behind)) = next(chunks, &at) {
        push_value(&mut found, &cell)?;
        at = behind;
    }
    Ok(found)
}

/// Adds the value of a cell, if a reader sees it. An error is out of memory (1).
fn push_value(found: &mut Vec<char>, cell: &Cell) -> Result<(), AllocError>
    ensures { OnOk result (found.new.items ≡ found.old.items ++ shown_values (cell.now ∷ [])) }
{
    if !cell.is_removed {
        found.push(cell.value)?;
    }
    Ok(())
}
