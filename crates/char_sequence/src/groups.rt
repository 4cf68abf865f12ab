//! How many cells a reader sees in each 64 chunks, one behind the other.
ghost use Rattle.std.specs.Prelude.{◌≡◌, ◌≤◌, ◌<◌, ◌+◌, ◌*◌, ◌^◌, ◌++◌, ◌∷◌, [], ℕ, List, length};
ghost use Rattle.std.specs.Prelude.{slice_set, vec_len, vec_capacity};
ghost use Rattle.std.proofs.Common.{get_or};
ghost use Rattle.char_sequence.specs.declared.cell.Cell as cell;
ghost use Rattle.char_sequence.specs.Chunks.{AreSized, ChunkCells};
ghost use Rattle.char_sequence.specs.Sums.{seen, seen_in, seen_in_group, AreGroups};

use crate::chunk::Chunk;

/// How many chunks are counted together.
pub(crate) const GROUP: usize = 64;

/// Counts anew: as many whole groups as there are counts, but for the first `same` ones, which are
/// as they were. A step for each, and for each chunk of the others.
pub(crate) fn count(groups: &mut [usize], chunks: &[Chunk], old: &[usize], same: usize)
    requires whole { GROUP * length groups.old ≤ length chunks.now }
    requires rest { length chunks.now < GROUP * length groups.old + GROUP }
    requires same { (g : ℕ) → g < same → g < length groups.old → (g < length old.now)
        × (get_or old.now g 0 ≡ seen_in_group chunks.now g) }
    ensures { AreGroups groups.new chunks.now }
{
    for g in 0..groups.len() {
        groups[g] = if g < same {
            old[g]
        } else {
            seen_in(&chunks[g * GROUP..g * GROUP + GROUP])
        };
    }
}

/// Counts the last 64 chunks, if one that came behind the others made them a whole group. The room
/// for a count is there. A step for each of the 64, and none if they aren't whole.
pub(crate) fn count_last(groups: &mut Vec<usize>, chunks: &[Chunk])
    requires room { vec_len groups.old < vec_capacity groups.old }
    requires whole { GROUP * length groups.old.items ≤ length chunks.now }
    requires rest { length chunks.now ≤ GROUP * length groups.old.items + GROUP }
    ensures { (held : ChunkCells) (k : List cell.Cell) → AreGroups groups.old.items held
        → chunks.now ≡ held ++ k ∷ [] → AreGroups groups.new.items chunks.now }
{
    let start = groups.len() * GROUP;
    if chunks.len() - start == GROUP {
        groups.push_reserved(seen_in(&chunks[start..]));
    }
}

/// How many cells of at most 64 chunks a reader sees. A step for each chunk.
fn seen_in(chunks: &[Chunk]) -> usize
    requires { length chunks.now ≤ GROUP }
    ensures { result ≡ seen chunks.now }
{
    let mut seen = 0;
    for chunk in chunks {
        seen += chunk.shown();
    }
    seen
}

/// Takes the count of the i-th chunk away from that of its group, and another one in. Constant.
pub(crate) fn recount(groups: &mut [usize], i: usize, before: usize, after: usize)
    ensures { (held : ChunkCells) (k new : List cell.Cell) → AreGroups groups.old held
        → AreSized 1 held → length held ≤ 2 ^ 54 → i < length held → k ≡ get_or held i k
        → before ≡ seen_in k → after ≡ seen_in new → after ≤ 512
        → AreGroups groups.new (slice_set held i new) }
{
    let g = i / GROUP;
    if g >= groups.len() {
        return;
    }
    groups[g] = groups[g].saturating_sub(before).saturating_add(after);
}
