//! Cells that a reader sees.
ghost use Rattle.std.specs.Prelude.{◌≡◌, ◌+◌, ◌*◌, ◌≤◌, ◌<◌, ◌/◌, ◌++◌, ◌∷◌, [], length, map, take, drop};
ghost use Rattle.std.specs.Prelude.{None, IfOk, OnOk, MatchOption};
ghost use Rattle.std.proofs.Common.{get_or};
ghost use Rattle.char_sequence.specs.Cells.{behind_shown, shown as shown_of, shown_at};
ghost use Rattle.char_sequence.specs.Chunks.{cells_of, from as from_of, IsPlace, size_of};
ghost use Rattle.char_sequence.specs.Gaps.{IsGap, IsSeen};
ghost use Rattle.char_sequence.specs.Sums.{StartsAt};
ghost use Rattle.char_sequence.specs.declared.chunk.TheConstants.{MAX_CHUNK, MIN_CHUNK};
ghost use Rattle.char_sequence.specs.declared.groups.TheConstants.{GROUP};

use crate::cell::Cell;
use crate::chunk_size::ChunkSize;
use crate::chunks::Chunks;
use crate::gap::{Gap, Seen};
use crate::groups::GROUP;
use crate::hidden::past_hidden;
use crate::place::Place;
use crate::reading::next;
use op_ids::OpId;
use op_model::Ticks;
use std::alloc::AllocError;

/// The k-th cell that a reader sees, counted from 0: a tick for each whole 64 chunks before it, for
/// each chunk of its own 64, and what `shown_of_chunk` takes.
pub(crate) fn shown(chunks: &Chunks, k: usize, ticks: &mut Ticks) -> Option<Seen>
    ensures found { MatchOption result (shown_at (cells_of chunks.now) k ≡ None)
        (IsSeen chunks.now 0 0 k) }
    ensures ticks { ticks.new
        ≤ ticks.old + (1 + length (cells_of chunks.now) / MIN_CHUNK + MAX_CHUNK) }
    ensures fewer { ticks.new ≤ ticks.old + (length (cells_of chunks.now) / (MIN_CHUNK * GROUP)
        + (2 + GROUP + MAX_CHUNK)) }
    ensures rising { ticks.old ≤ ticks.new }
{
    chunks.are_sized();
    let start = past_groups(chunks, k, ticks);
    let mut left = start.left;
    let mut i = start.chunk;
    while let Some(size) = chunks.chunk(i, ticks) {
        if left < size.shown {
            return shown_of_chunk(chunks, i, size, left, ticks);
        }
        left -= size.shown;
        i += 1;
    }
    None
}

/// The k-th cell that a reader sees from a chunk on, which is one of that chunk: a tick where that
/// has no tombstones, else one for each of its cells up to it.
fn shown_of_chunk(
    chunks: &Chunks,
    i: usize,
    size: ChunkSize,
    k: usize,
    ticks: &mut Ticks,
) -> Option<Seen>
    requires size { size ≡ size_of (get_or chunks.now i []) }
    requires here { k < length (shown_of (get_or chunks.now i [])) }
    ensures found { MatchOption result ⊥ (IsSeen chunks.now i 0 k) }
    ensures ticks { ticks.new ≤ ticks.old + size.cells }
    ensures rising { ticks.old ≤ ticks.new }
{
    if size.shown < size.cells {
        return shown_in(chunks, i, size.cells, k, ticks);
    }
    // Each of its cells is seen.
    chunks.are_sized();
    match chunks.cell(i, k, ticks) {
        Some(cell) => Some(Seen {
            id: cell.id,
            behind: Place {
                chunk: i,
                at: k + 1,
            },
        }),
        None => None,
    }
}

/// A chunk, and how many cells from there on a reader sees before one.
#[derive(Clone, Copy)]
struct Start {
    chunk: usize,
    left: usize,
}

/// Passes the whole 64 chunks before the k-th cell that a reader sees: a tick for each, and for
/// those in which it stands.
fn past_groups(chunks: &Chunks, k: usize, ticks: &mut Ticks) -> Start
    ensures start { StartsAt chunks.now k result.chunk result.left }
    ensures ticks { ticks.new ≤ ticks.old + (result.chunk / GROUP + 1) }
    ensures none { length chunks.now < GROUP → ticks.new ≡ ticks.old }
    ensures rising { ticks.old ≤ ticks.new }
{
    chunks.are_sized();
    let groups = chunks.groups();
    let mut left = k;
    for g in 0..groups {
        let seen = chunks.group(g, ticks);
        if left < seen {
            return Start {
                chunk: GROUP * g,
                left,
            };
        }
        left -= seen;
    }
    Start {
        chunk: GROUP * groups,
        left,
    }
}

/// The k-th cell that a reader sees from a chunk on, which is one of that chunk.
fn shown_in(chunks: &Chunks, i: usize, cells: usize, k: usize, ticks: &mut Ticks) -> Option<Seen>
    requires cells { cells ≡ length (get_or chunks.now i []) }
    requires here { k < length (shown_of (get_or chunks.now i [])) }
    ensures found { MatchOption result ⊥ (IsSeen chunks.now i 0 k) }
    ensures ticks { ticks.new ≤ ticks.old + cells }
    ensures rising { ticks.old ≤ ticks.new }
{
    chunks.are_sized();
    let mut left = k;
    for j in 0..cells {
        if let Some(cell) = chunks.cell(i, j, ticks) {
            if !cell.is_removed {
                if left == 0 {
                    return Some(Seen {
                        id: cell.id,
                        behind: Place {
                            chunk: i,
                            at: j + 1,
                        },
                    });
                }
                left -= 1;
            }
        }
    }
    None
}

/// The place behind the first `count` cells that a reader sees, or `None` where there are fewer.
/// Costs what `shown` does.
pub(crate) fn gap(chunks: &Chunks, count: usize) -> Option<Gap>
    ensures { MatchOption result (length (shown_of (cells_of chunks.now)) < count)
        (λ gap. (count ≤ length (shown_of (cells_of chunks.now))) × (gap.count ≡ count)
        × IsGap chunks.now gap) }
{
    if count == 0 {
        return Some(Gap {
            count,
            before: None,
            place: Place { chunk: 0, at: 0 },
        });
    }
    match shown(chunks, count - 1, &mut Ticks::new()) {
        Some(seen) => Some(Gap {
            count,
            before: Some(seen.id),
            place: seen.behind,
        }),
        None => None,
    }
}

/// The place behind the first `count` cells that a reader sees; the end where there are fewer.
/// Costs what `shown` does.
pub(crate) fn behind(chunks: &Chunks, count: usize) -> Place
    ensures place { IsPlace chunks.now result.chunk result.at }
    ensures rest { from_of chunks.now result.chunk result.at
        ≡ behind_shown (cells_of chunks.now) count }
{
    match gap(chunks, count) {
        Some(gap) => gap.place,
        None => chunks.end(),
    }
}

/// The ids of `count` cells that a reader sees, from the k-th on, or of as many as there are.
/// Chunks that show nothing are passed in one step each.
pub(crate) fn shown_from(chunks: &Chunks, k: usize, count: usize) -> Result<Vec<OpId>, AllocError>
    ensures range { IfOk result (λ ids. ids.items
        ≡ map (λ c. c.id) (take count (drop k (shown_of (cells_of chunks.now))))) }
    ensures few { IfOk result (λ ids. length ids.items ≤ count) }
{
    let mut ids = Vec::new(chunks.allocator());
    let mut at = behind(chunks, k);
    while ids.len() < count {
        let from = past_hidden(chunks, &at);
        let (cell, behind) = match next(chunks, &from) {
            None => return Ok(ids),
            Some(found) => found,
        };
        push_shown(&mut ids, &cell)?;
        at = behind;
    }
    Ok(ids)
}

/// Adds the id of a cell, if a reader sees it. An error is out of memory (1).
fn push_shown(ids: &mut Vec<OpId>, cell: &Cell) -> Result<(), AllocError>
    ensures { OnOk result
        (ids.new.items ≡ ids.old.items ++ map (λ c. c.id) (shown_of (cell.now ∷ []))) }
{
    if !cell.is_removed {
        ids.push(cell.id)?;
    }
    Ok(())
}
