//! Where a place that lasts stands now.
ghost use Rattle.std.specs.Prelude.{◌≡◌, ◌+◌, ◌*◌, ◌/◌, ◌%◌, ◌≤◌, [], ℕ, List, length, take};
ghost use Rattle.std.proofs.Common.{get_or};
ghost use Rattle.char_sequence.specs.Cells.{shown as shown_of};
ghost use Rattle.char_sequence.specs.Chunks.{before, cells_of, IsPlace};
ghost use Rattle.char_sequence.specs.Content.{Holds};
ghost use Rattle.char_sequence.specs.Sums.{seen, seen_in};
ghost use Rattle.char_sequence.specs.declared.chunk.TheConstants.{MAX_CHUNK, MIN_CHUNK};
ghost use Rattle.char_sequence.specs.declared.groups.TheConstants.{GROUP};
ghost use Rattle.op_model.specs.Lasting.{at_of};
ghost use Rattle.op_model.specs.declared.op.Op.{Op};

use crate::chunks::Chunks;
use crate::finding::place;
use crate::groups::GROUP;
use crate::hints::Hints;
use crate::place::Place;
use op_ids::OpId;
use op_model::{Anchor, Lasting, Ticks};

/// How many cells that a reader sees stand before an anchor, or `None` where its character isn't
/// there. A search of the character, in which no ticks are counted, and what `seen_before` takes.
pub(crate) fn beside(
    chunks: &Chunks,
    hints: &Hints,
    anchor: &Anchor,
    ticks: &mut Ticks,
) -> Option<usize>
    ensures at { (ops : List Op) (doc : ℕ) → Holds chunks.now ops doc
        → result ≡ at_of ops doc (Lasting.Beside anchor.now) }
    ensures ticks { ticks.new ≤ ticks.old + (length (cells_of chunks.now) / (MIN_CHUNK * GROUP)
        + (GROUP + MAX_CHUNK)) }
{
    match anchor {
        Anchor::Before(id) => before_character(chunks, hints, id, ticks),
        Anchor::After(id) => after_character(chunks, hints, id, ticks),
    }
}

/// The same just before a character.
fn before_character(chunks: &Chunks, hints: &Hints, id: &OpId, ticks: &mut Ticks) -> Option<usize>
    ensures at { (ops : List Op) (doc : ℕ) → Holds chunks.now ops doc
        → result ≡ at_of ops doc (Lasting.Beside (Anchor.Before id.now)) }
    ensures ticks { ticks.new ≤ ticks.old + (length (cells_of chunks.now) / (MIN_CHUNK * GROUP)
        + (GROUP + MAX_CHUNK)) }
{
    match place(chunks, hints, id) {
        Some(found) => Some(seen_before(chunks, &found, ticks)),
        None => None,
    }
}

/// The same just after a character.
fn after_character(chunks: &Chunks, hints: &Hints, id: &OpId, ticks: &mut Ticks) -> Option<usize>
    ensures at { (ops : List Op) (doc : ℕ) → Holds chunks.now ops doc
        → result ≡ at_of ops doc (Lasting.Beside (Anchor.After id.now)) }
    ensures ticks { ticks.new ≤ ticks.old + (length (cells_of chunks.now) / (MIN_CHUNK * GROUP)
        + (GROUP + MAX_CHUNK)) }
{
    chunks.are_sized();
    match place(chunks, hints, id) {
        Some(found) => {
            let behind = Place {
                chunk: found.chunk,
                at: found.at + 1,
            };
            Some(seen_before(chunks, &behind, ticks))
        }
        None => None,
    }
}

/// How many cells before a place a reader sees: a tick for each whole 64 chunks before it, for each
/// further chunk up to its own, and for each cell of that up to it.
pub(crate) fn seen_before(chunks: &Chunks, place: &Place, ticks: &mut Ticks) -> usize
    requires { IsPlace chunks.now place.now.chunk place.now.at }
    ensures seen { result ≡ length (shown_of (before chunks.now place.now.chunk place.now.at)) }
    ensures ticks { ticks.new ≤ ticks.old + (length (cells_of chunks.now) / (MIN_CHUNK * GROUP)
        + (GROUP + MAX_CHUNK)) }
{
    chunks.are_sized();
    let front = seen_in_front(chunks, place.chunk, ticks);
    let own = seen_in_own(chunks, place, ticks);
    front + own
}

/// How many cells of the chunks before the i-th a reader sees.
fn seen_in_front(chunks: &Chunks, i: usize, ticks: &mut Ticks) -> usize
    requires { i ≤ length chunks.now }
    ensures seen { result ≡ seen (take i chunks.now) }
    ensures ticks { ticks.new ≡ ticks.old + (i / GROUP + i % GROUP) }
{
    chunks.are_sized();
    let whole = i / GROUP;
    let mut count = seen_in_groups(chunks, whole, ticks);
    for j in whole * GROUP..i {
        count += seen_in_chunk(chunks, j, ticks);
    }
    count
}

/// How many cells of the first so many whole 64 chunks a reader sees.
fn seen_in_groups(chunks: &Chunks, whole: usize, ticks: &mut Ticks) -> usize
    requires { GROUP * whole ≤ length chunks.now }
    ensures seen { result ≡ seen (take (GROUP * whole) chunks.now) }
    ensures ticks { ticks.new ≡ ticks.old + whole }
{
    chunks.are_sized();
    let mut count = 0;
    for g in 0..whole {
        count += chunks.group(g, ticks);
    }
    count
}

/// How many cells of a chunk a reader sees; none past the last one. Constant.
fn seen_in_chunk(chunks: &Chunks, i: usize, ticks: &mut Ticks) -> usize
    ensures seen { result ≡ seen_in (get_or chunks.now i []) }
    ensures tick { ticks.new ≡ ticks.old + 1 }
{
    match chunks.chunk(i, ticks) {
        Some(size) => size.shown,
        None => 0,
    }
}

/// How many cells before a place a reader sees, of its own chunk.
fn seen_in_own(chunks: &Chunks, place: &Place, ticks: &mut Ticks) -> usize
    requires { IsPlace chunks.now place.now.chunk place.now.at }
    ensures seen { result
        ≡ length (shown_of (take place.now.at (get_or chunks.now place.now.chunk []))) }
    ensures ticks { ticks.new ≡ ticks.old + place.now.at }
{
    chunks.are_sized();
    let mut count = 0;
    for j in 0..place.at {
        if let Some(cell) = chunks.cell(place.chunk, j, ticks) {
            if !cell.is_removed {
                count += 1;
            }
        }
    }
    count
}
