//! One edge more among chunks of edges, or one less.
ghost use Rattle.std.specs.Prelude.{◌≡◌, List, OnOk, OnErr};
ghost use Rattle.mark_anchors.specs.declared.edge.Edge as edge;
ghost use Rattle.mark_anchors.specs.EdgeChunks.{edges_in, put_in, AreChunks, IsSpot};

use crate::cuts::cut;
use crate::edge::Edge;
use crate::edge_chunk::EdgeChunk;
use crate::spot::{Spot, chunks_to};
use op_ids::OpId;
use std::alloc::AllocError;

/// Cuts the chunk that an edge of this character goes into, if it is full. An error is out of
/// memory (1). The edges stay, also after an error.
pub(crate) fn make_room(chunks: &mut Vec<EdgeChunk>, id: OpId) -> Result<(), AllocError>
    requires { AreChunks chunks.old.items }
    ensures chunks { AreChunks chunks.new.items }
    ensures edges { edges_in chunks.new.items ≡ edges_in chunks.old.items }
{
    let n = chunks_to(chunks, id);
    if n > 0 {
        cut(chunks, n - 1)?;
    }
    Ok(())
}

/// Puts an edge at its spot. An error is out of memory (1), and leaves all as it was.
pub(crate) fn put_at(chunks: &mut Vec<EdgeChunk>, spot: Spot, edge: Edge) -> Result<(), AllocError>
    requires chunks { AreChunks chunks.old.items }
    requires spot { IsSpot chunks.old.items edge.id spot }
    ensures chunks { AreChunks chunks.new.items }
    ensures put { OnOk result (edges_in chunks.new.items
        ≡ put_in edge (edges_in chunks.old.items)) }
    ensures err { OnErr result (chunks.new.items ≡ chunks.old.items) }
{
    match spot {
        Spot::In(i) => {
            let chunk = &mut chunks[i];
            chunk.put(edge)?;
        }
        Spot::New(i) => {
            let chunk = EdgeChunk::of(*chunks.allocator(), &[edge])?;
            chunks.insert(i, chunk)?;
        }
    }
    Ok(())
}

/// Takes the last edge away that doesn't stand at a character above this one.
pub(crate) fn take_last(chunks: &mut Vec<EdgeChunk>, id: OpId)
    requires { AreChunks chunks.old.items }
    ensures chunks { AreChunks chunks.new.items }
    ensures back { (e : edge.Edge) (es : List edge.Edge) → e.id ≡ id
        → edges_in chunks.old.items ≡ put_in e es → edges_in chunks.new.items ≡ es }
{
    let n = chunks_to(chunks, id);
    if n == 0 {
        return;
    }
    let chunk = &mut chunks[n - 1];
    chunk.take_last(id);
    if chunk.edges().is_empty() {
        chunks.remove(n - 1);
    }
}
