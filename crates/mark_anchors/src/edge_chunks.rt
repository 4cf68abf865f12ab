//! The edges of all mark operations of a document.
ghost use Rattle.std.specs.Prelude.{◌≡◌, ◌++◌, List, [], filter, option_to_list, IfOk, OnOk, OnErr};
ghost use Rattle.std.specs.List.Sorted.{IsPermutation};
ghost use Rattle.op_ids.specs.Id.{is_same};
ghost use Rattle.mark_anchors.specs.declared.edge.Edge as edge;
ghost use Rattle.mark_anchors.specs.EdgeChunks.{put_in};
ghost use Rattle.mark_anchors.specs.Edges.{AreInOrder};

use crate::cuts::{chunks_of, cut};
use crate::edge::Edge;
use crate::edge_chunk::EdgeChunk;
use crate::edges::at;
use crate::putting::{make_room, put_at, take_last};
use crate::spot::{chunks_to, find_spot};
use op_ids::OpId;
use std::alloc::{AllocError, Global};
use std::marker::Model;

/// Edges in the order of their characters' ids, in chunks of at most 512, so that one more moves
/// few others. All edges of a character stand in one chunk, which may grow longer if it has no
/// others. A full chunk that is to take an edge is cut between two characters near its middle.
#[derive(Debug, Drop)]
pub struct EdgeChunks {
    chunks: Vec<EdgeChunk>,
}

impl Model for EdgeChunks {
    ghost use Rattle.std.specs.Prelude.{List};
    ghost use Rattle.mark_anchors.specs.declared.edge.Edge.{Edge};
    ghost use Rattle.mark_anchors.specs.EdgeChunks.{edges_in, AreChunks};

    ghost Value = { List Edge };

    ghost view = { λ c. edges_in c.chunks.items };

    ghost invariant = { λ c. AreChunks c.chunks.items };
}

impl EdgeChunks {
    /// No edges. Takes no memory.
    pub(crate) fn new(alloc: Global) -> EdgeChunks
        ensures { result ≡ [] }
    {
        EdgeChunks {
            chunks: Vec::new(alloc),
        }
    }

    /// These edges, which are in order. An error is out of memory (1). A step for each.
    pub(crate) fn of(alloc: Global, edges: &[Edge]) -> Result<EdgeChunks, AllocError>
        requires { AreInOrder edges.now }
        ensures { IfOk result (λ all. all ≡ edges.now) }
    {
        Ok(EdgeChunks {
            chunks: chunks_of(alloc, edges)?,
        })
    }

    /// The same edges again. An error is out of memory (1). A step for each chunk, whose edges are
    /// copied as memory.
    pub(crate) fn copy(&self) -> Result<EdgeChunks, AllocError>
        ensures { IfOk result (λ copied. copied ≡ self.now) }
    {
        Ok(EdgeChunks {
            chunks: copied(*self.chunks.allocator(), &self.chunks)?,
        })
    }

    /// Those of a character. A search by halves among the chunks, and two in one of them.
    pub(crate) fn at(&self, id: OpId) -> &[Edge]
        ensures { result.now ≡ filter (λ e. is_same e.id id) self.now }
    {
        let n = chunks_to(&self.chunks, id);
        if n == 0 {
            return &[];
        }
        at(self.chunks[n - 1].edges(), id)
    }

    /// Puts the edges of a mark operation among them. An error is out of memory (1), and leaves
    /// them as they were. Each moves at most the edges of one chunk, and if that is cut, the places
    /// of the chunks behind.
    pub(crate) fn put_both(
        &mut self,
        start: Option<Edge>,
        end: Option<Edge>,
    ) -> Result<(), AllocError>
        ensures put { OnOk result (IsPermutation
            (option_to_list end ++ (option_to_list start ++ self.old)) self.new) }
        ensures err { OnErr result (self.new ≡ self.old) }
    {
        let Some(start) = start else {
            return self.put_some(end);
        };
        let id = start.id;
        self.put(start)?;
        match self.put_some(end) {
            Ok(()) => Ok(()),
            Err(error) => {
                // The first edge would be one of a mark operation that isn't kept.
                self.take_back(id);
                Err(error)
            }
        }
    }

    /// The same of an edge, or of none.
    fn put_some(&mut self, edge: Option<Edge>) -> Result<(), AllocError>
        ensures put { OnOk result (IsPermutation (option_to_list edge ++ self.old) self.new) }
        ensures err { OnErr result (self.new ≡ self.old) }
    {
        if let Some(edge) = edge {
            self.put(edge)?;
        }
        Ok(())
    }

    /// Puts an edge behind those that don't stand at a character above its own. An error is out of
    /// memory (1), and leaves them as they were.
    fn put(&mut self, edge: Edge) -> Result<(), AllocError>
        ensures put { OnOk result (self.new ≡ put_in edge self.old) }
        ensures err { OnErr result (self.new ≡ self.old) }
    {
        make_room(&mut self.chunks, edge.id)?;
        let spot = find_spot(&self.chunks, edge.id);
        put_at(&mut self.chunks, spot, edge)
    }

    /// Takes an edge of a character away that was put last.
    fn take_back(&mut self, id: OpId)
        ensures { (e : edge.Edge) (es : List edge.Edge) → e.id ≡ id → self.old ≡ put_in e es
            → self.new ≡ es }
    {
        take_last(&mut self.chunks, id);
    }
}

/// The same chunks again. An error is out of memory (1).
fn copied(alloc: Global, chunks: &[EdgeChunk]) -> Result<Vec<EdgeChunk>, AllocError>
    ensures { IfOk result (λ copied. copied.items ≡ chunks.now) }
{
    let mut copied = Vec::with_capacity(alloc, chunks.len())?;
    for chunk in chunks {
        copied.push(chunk.copy()?)?;
    }
    Ok(copied)
}
