//! Characters by their ids.
ghost use Rattle.std.specs.Prelude.{◌≡◌, ◌+◌, [], length, MatchOption, false};
ghost use Rattle.std.proofs.Common.{get_or};
ghost use Rattle.std.specs.List.{list_all};
ghost use Rattle.char_sequence.specs.Cells.{has_cell, is_known};
ghost use Rattle.char_sequence.specs.Chunks.{before, cell_at, cells_of, IsPlace, IsPlaceOf};
ghost use Rattle.char_sequence.specs.Finding.{has_id_at};

use crate::chunks::Chunks;
use crate::hints::Hints;
use crate::place::Place;
use crate::search::has_id;
use op_ids::OpId;
use op_model::Ticks;

/// The place before the cell with this id, or `None` where there is none. The cell that was put in
/// last and the one behind it are tried first, then the chunk that is hinted at, then all.
pub(crate) fn place(chunks: &Chunks, hints: &Hints, id: &OpId) -> Option<Place>
    ensures { MatchOption result (has_cell (cells_of chunks.now) id.now ≡ false)
        (λ p. IsPlaceOf chunks.now id.now p.chunk p.at) }
{
    let last = hints.last();
    if is_at(chunks, &last, id) {
        return Some(last);
    }
    let behind = Place {
        chunk: last.chunk,
        at: last.at.saturating_add(1),
    };
    if is_at(chunks, &behind, id) {
        return Some(behind);
    }
    if let Some(found) = in_chunk(chunks, hints.chunk_of(id), id) {
        return Some(found);
    }
    in_all(chunks, id)
}

/// Whether the cell behind a place has this id.
fn is_at(chunks: &Chunks, place: &Place, id: &OpId) -> bool
    ensures { result ≡ has_id_at (cell_at chunks.now place.now.chunk place.now.at) id.now }
{
    has_id(chunks.cell(place.chunk, place.at, &mut Ticks::new()), id)
}

/// The place of an id in a chunk.
fn in_chunk(chunks: &Chunks, i: usize, id: &OpId) -> Option<Place>
    ensures { MatchOption result (has_cell (get_or chunks.now i []) id.now ≡ false)
        (λ p. IsPlaceOf chunks.now id.now p.chunk p.at) }
{
    match chunks.find(i, id) {
        Some(at) => Some(Place { chunk: i, at }),
        None => None,
    }
}

/// The place of an id, of all.
fn in_all(chunks: &Chunks, id: &OpId) -> Option<Place>
    ensures { MatchOption result (has_cell (cells_of chunks.now) id.now ≡ false)
        (λ p. IsPlaceOf chunks.now id.now p.chunk p.at) }
{
    chunks.are_sized();
    let mut i = 0;
    while let Some(_) = chunks.chunk(i, &mut Ticks::new()) {
        if let Some(found) = in_chunk(chunks, i, id) {
            return Some(found);
        }
        i += 1;
    }
    None
}

/// Whether an origin is there: the beginning always is.
pub(crate) fn knows(chunks: &Chunks, hints: &Hints, origin: &Option<OpId>) -> bool
    ensures { result ≡ is_known (cells_of chunks.now) origin.now }
{
    match origin {
        None => true,
        Some(id) => match place(chunks, hints, id) {
            Some(_) => true,
            None => false,
        },
    }
}

/// Whether characters are there.
pub(crate) fn knows_all(chunks: &Chunks, hints: &Hints, ids: &[OpId]) -> bool
    ensures { result ≡ list_all (λ id. has_cell (cells_of chunks.now) id) ids.now }
{
    for id in ids {
        match place(chunks, hints, id) {
            Some(_) => {}
            None => return false,
        }
    }
    true
}

/// How many cells stand before a place. A step for each chunk before it.
pub(crate) fn index(chunks: &Chunks, place: &Place) -> usize
    requires { IsPlace chunks.now place.now.chunk place.now.at }
    ensures { result ≡ length (before chunks.now place.now.chunk place.now.at) }
{
    chunks.are_sized();
    let mut count = place.at;
    for i in 0..place.chunk {
        count += cells_in(chunks, i);
    }
    count
}

/// How many cells a chunk has; none past the last one. Constant.
fn cells_in(chunks: &Chunks, i: usize) -> usize
    ensures { result ≡ length (get_or chunks.now i []) }
{
    match chunks.chunk(i, &mut Ticks::new()) {
        Some(size) => size.cells,
        None => 0,
    }
}
