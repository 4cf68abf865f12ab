//! Where a cell goes.
ghost use Rattle.std.specs.Prelude.{◌≡◌, ◌++◌, ◌∷◌, MatchOption, false};
ghost use Rattle.char_sequence.specs.Cells.{is_known, past_greater};
ghost use Rattle.char_sequence.specs.Chunks.{before, cells_of, from as from_of, IsPlace};
ghost use Rattle.char_sequence.specs.Landing.{Lands, Stops};

use crate::cell::Cell;
use crate::chunks::Chunks;
use crate::finding::place;
use crate::hints::Hints;
use crate::place::Place;
use crate::reading::next;
use op_ids::OpId;

/// Where a cell goes: behind its origin and past all greater ids that follow, or `None` where the
/// origin isn't there.
pub(crate) fn landing(
    chunks: &Chunks,
    hints: &Hints,
    origin: &Option<OpId>,
    cell: &Cell,
) -> Option<Place>
    ensures { MatchOption result (is_known (cells_of chunks.now) origin.now ≡ false)
        (Lands chunks.now origin.now cell.now) }
{
    chunks.are_sized();
    match origin {
        None => Some(past(chunks, &Place { chunk: 0, at: 0 }, cell)),
        Some(id) => {
            let found = match place(chunks, hints, id) {
                Some(found) => found,
                None => return None,
            };
            let behind = Place {
                chunk: found.chunk,
                at: found.at + 1,
            };
            Some(past(chunks, &behind, cell))
        }
    }
}

/// The first place from this one on that no greater id stands behind.
fn past(chunks: &Chunks, from: &Place, cell: &Cell) -> Place
    requires { IsPlace chunks.now from.now.chunk from.now.at }
    ensures place { IsPlace chunks.now result.chunk result.at }
    ensures stops { Stops cell.now (from_of chunks.now result.chunk result.at) }
    ensures past { before chunks.now from.now.chunk from.now.at
        ++ past_greater cell.now (from_of chunks.now from.now.chunk from.now.at)
        ≡ before chunks.now result.chunk result.at
        ++ cell.now ∷ from_of chunks.now result.chunk result.at }
{
    let mut at = *from;
    while let Some((other, behind)) = next(chunks, &at) {
        if !cell.id.is_below(other.id) {
            return at;
        }
        at = behind;
    }
    at
}
