//! Of the tombstones from a place on the last one that a mark ends just after.
ghost use Rattle.std.specs.Prelude.{◌≡◌, false, MatchOption};
ghost use Rattle.std.specs.List.{list_any};
ghost use Rattle.char_sequence.specs.Chunks.{cells_of, IsPlace};
ghost use Rattle.char_sequence.specs.Reading.{is_among, last_ended as last_ended_of, tombstones_from};
ghost use Rattle.char_sequence.specs.Reading.{HidesUpTo, Splits};
ghost use Rattle.char_sequence.specs.Weave.{AreOnce};
ghost use Rattle.op_ids.specs.Id.{is_same};

use crate::chunks::Chunks;
use crate::ends_after::EndsAfter;
use crate::finding::place;
use crate::hidden::first_shown;
use crate::hints::Hints;
use crate::place::{Place, Stretch};
use crate::reading::next;
use op_ids::OpId;

/// How many characters are found in the time of a question for each tombstone of a chunk.
const FINDS_PER_CHUNK: usize = 8;

/// Of the tombstones from a place on the last one that a mark ends just after, or else the
/// character before them. Constant where no mark ends just after a character; else a step for each
/// chunk of tombstones, and about the less of a question to the marks for each tombstone and a
/// search for each character that a mark ends just after.
pub(crate) fn last_ended<M: EndsAfter>(
    chunks: &Chunks,
    hints: &Hints,
    from: &Place,
    before: Option<OpId>,
    marks: &M,
) -> Option<OpId>
    requires { IsPlace chunks.now from.now.chunk from.now.at }
    ensures { AreOnce (cells_of chunks.now)
        → result ≡ last_ended_of (M.ends_after marks.now) before
        (tombstones_from chunks.now from.now) }
{
    let ended = marks.ended();
    if ended.is_empty() {
        return before;
    }
    let to = first_shown(chunks, from);
    let far = to.chunk.saturating_sub(from.chunk);
    if far.saturating_mul(FINDS_PER_CHUNK) <= ended.len() {
        return last_asked(chunks, from, before, marks);
    }
    let tombstones = Stretch { from: *from, to };
    last_found(chunks, hints, &tombstones, before, ended)
}

/// The same: the marks are asked of each tombstone.
fn last_asked<M: EndsAfter>(
    chunks: &Chunks,
    from: &Place,
    before: Option<OpId>,
    marks: &M,
) -> Option<OpId>
    requires { IsPlace chunks.now from.now.chunk from.now.at }
    ensures { result ≡ last_ended_of (M.ends_after marks.now) before
        (tombstones_from chunks.now from.now) }
{
    let mut last = before;
    let mut at = *from;
    while let Some((cell, behind)) = next(chunks, &at) {
        if !cell.is_removed {
            return last;
        }
        if marks.ends_after(cell.id) {
            last = Some(cell.id);
        }
        at = behind;
    }
    last
}

/// The same: each character that a mark ends just after is looked for, and where the tombstones end
/// is given.
fn last_found(
    chunks: &Chunks,
    hints: &Hints,
    tombstones: &Stretch,
    before: Option<OpId>,
    ended: &[OpId],
) -> Option<OpId>
    requires { HidesUpTo chunks.now tombstones.now.from tombstones.now.to }
    ensures { AreOnce (cells_of chunks.now)
        → result ≡ last_ended_of (λ id. list_any (λ e. is_same e id) ended.now) before
        (tombstones_from chunks.now tombstones.now.from) }
{
    let mut last = before;
    let mut at = tombstones.from;
    for id in ended {
        if let Some(behind) = behind_id(chunks, hints, &at, &tombstones.to, id) {
            last = Some(*id);
            at = behind;
        }
    }
    last
}

/// The place behind the tombstone with this id, if it is one of those from a place on, where they
/// end is given.
fn behind_id(chunks: &Chunks, hints: &Hints, from: &Place, to: &Place, id: &OpId) -> Option<Place>
    requires { HidesUpTo chunks.now from.now to.now }
    ensures { MatchOption result
        (AreOnce (cells_of chunks.now)
        → is_among id.now (tombstones_from chunks.now from.now) ≡ false)
        (λ behind. HidesUpTo chunks.now behind to.now × (AreOnce (cells_of chunks.now)
        → Splits (tombstones_from chunks.now from.now) id.now
        (tombstones_from chunks.now behind))) }
{
    chunks.are_sized();
    let found = match place(chunks, hints, id) {
        Some(found) => found,
        None => return None,
    };
    if found.is_ahead_of(from) || !found.is_ahead_of(to) {
        return None;
    }
    Some(Place {
        chunk: found.chunk,
        at: found.at + 1,
    })
}
