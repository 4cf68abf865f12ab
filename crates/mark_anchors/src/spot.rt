//! Where one more edge goes among chunks of edges.
ghost use Rattle.std.specs.Prelude.{◌≡◌, ◌<◌, ◌≤◌, ◌-◌, [], false, take, drop, length};
ghost use Rattle.std.proofs.Common.{get_or};
ghost use Rattle.op_ids.specs.Id.{Id};
ghost use Rattle.mark_anchors.specs.EdgeChunks.{edges_in, starts_above, AreAbove, AreBelow, AreChunks};
ghost use Rattle.mark_anchors.specs.EdgeChunks.{IsSpot};

use crate::edge_chunk::EdgeChunk;
use op_ids::OpId;

/// Where one more edge goes.
#[derive(Clone, Copy, Debug)]
pub enum Spot {
    /// Into this chunk.
    In(usize),
    /// Into a new chunk, before this one or behind all.
    New(usize),
}

/// How many chunks don't begin at a character above this one: its edges are in the last of these. A
/// search by halves.
pub(crate) fn chunks_to(chunks: &[EdgeChunk], id: OpId) -> usize
    requires { AreChunks chunks.now }
    ensures bound { result ≤ length chunks.now }
    ensures above { AreAbove id (edges_in (drop result chunks.now)) }
    ensures below { 0 < result → AreBelow (edges_in (take (result - 1) chunks.now)) id }
    ensures begins { 0 < result → starts_above id (get_or chunks.now (result - 1) []) ≡ false }
{
    chunks.partition_point(|chunk| !chunk.starts_above(id))
}

/// Where an edge of a character goes: into the chunk of this character; if there is none, into one
/// beside its place that has room, or else into a new one. So a full chunk that wasn't cut takes
/// edges of its one character alone.
pub(crate) fn find_spot(chunks: &[EdgeChunk], id: OpId) -> Spot
    requires { AreChunks chunks.now }
    ensures { IsSpot chunks.now id result }
{
    let n = chunks_to(chunks, id);
    if n == 0 {
        return spot_before(chunks, 0);
    }
    let chunk = &chunks[n - 1];
    if chunk.has_room() || !chunk.ends_below(id) {
        return Spot::In(n - 1);
    }
    spot_before(chunks, n)
}

/// Where an edge goes that belongs before this chunk, or behind all: to its front, if it has room.
fn spot_before(chunks: &[EdgeChunk], n: usize) -> Spot
    requires { n ≤ length chunks.now }
    ensures { (id : Id) → AreBelow (edges_in (take n chunks.now)) id
        → AreAbove id (edges_in (drop n chunks.now)) → IsSpot chunks.now id result }
{
    if n < chunks.len() && chunks[n].has_room() {
        return Spot::In(n);
    }
    Spot::New(n)
}
