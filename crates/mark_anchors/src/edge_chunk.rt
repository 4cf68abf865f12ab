//! A chunk of edges.
ghost use Rattle.std.specs.Prelude.{◌≡◌, ◌<◌, true, false, length, take, IfOk, OnOk, OnErr};
ghost use Rattle.mark_anchors.specs.EdgeChunks.{put_in, starts_above, AreBelow, IsWithoutLast};
ghost use Rattle.mark_anchors.specs.Edges.{AreInOrder};

use crate::edge::Edge;
use crate::edges::not_above;
use op_ids::OpId;
use std::alloc::{AllocError, Global};
use std::marker::Model;

/// The most edges of a chunk, unless they all stand at one character.
pub(crate) const MAX_CHUNK: usize = 512;

/// Edges in the order of their characters' ids.
#[derive(Debug, Drop)]
pub struct EdgeChunk {
    edges: Vec<Edge>,
}

impl Model for EdgeChunk {
    ghost use Rattle.std.specs.Prelude.{List};
    ghost use Rattle.mark_anchors.specs.declared.edge.Edge.{Edge};

    ghost Value = { List Edge };

    ghost view = { λ c. c.edges.items };
}

impl EdgeChunk {
    /// A chunk of these edges. An error is out of memory (1).
    pub(crate) fn of(alloc: Global, edges: &[Edge]) -> Result<EdgeChunk, AllocError>
        ensures { IfOk result (λ chunk. chunk ≡ edges.now) }
    {
        Ok(EdgeChunk {
            edges: Vec::from_slice(alloc, edges)?,
        })
    }

    /// The same chunk again. An error is out of memory (1). Its edges are copied as memory.
    pub(crate) fn copy(&self) -> Result<EdgeChunk, AllocError>
        ensures { IfOk result (λ copied. copied ≡ self.now) }
    {
        EdgeChunk::of(*self.edges.allocator(), &self.edges)
    }

    /// All its edges. Constant.
    pub(crate) fn edges(&self) -> &[Edge]
        ensures { result.now ≡ self.now }
    {
        &self.edges
    }

    /// Whether it can take an edge of any character. Constant.
    pub(crate) fn has_room(&self) -> bool {
        self.edges.len() < MAX_CHUNK
    }

    /// Whether it begins at a character above this one. Constant.
    pub(crate) fn starts_above(&self, id: OpId) -> bool
        ensures { result ≡ starts_above id self.now }
    {
        match self.edges.first() {
            Some(first) => id.is_below(first.id),
            None => false,
        }
    }

    /// Whether it ends at a character below this one. Constant.
    pub(crate) fn ends_below(&self, id: OpId) -> bool
        requires { AreInOrder self.now }
        ensures { result ≡ true → AreBelow self.now id }
    {
        match self.edges.last() {
            Some(last) => last.id.is_below(id),
            None => true,
        }
    }

    /// Puts an edge at its place. An error is out of memory (1), and leaves it as it was. The
    /// edges behind move.
    pub(crate) fn put(&mut self, edge: Edge) -> Result<(), AllocError>
        requires { AreInOrder self.old }
        ensures put { OnOk result (self.new ≡ put_in edge self.old) }
        ensures order { OnOk result (AreInOrder self.new) }
        ensures err { OnErr result (self.new ≡ self.old) }
    {
        let place = not_above(&self.edges, edge.id);
        self.edges.insert(place, edge)?;
        Ok(())
    }

    /// Takes the last edge away that doesn't stand at a character above this one. The edges behind
    /// move.
    pub(crate) fn take_last(&mut self, id: OpId)
        requires order { AreInOrder self.old }
        requires some { 0 < length self.old }
        requires begins { starts_above id self.old ≡ false }
        ensures { IsWithoutLast id self.old self.new }
    {
        let behind = not_above(&self.edges, id);
        self.edges.remove(behind - 1);
    }

    /// Keeps as many of its first edges. Constant.
    pub(crate) fn truncate(&mut self, len: usize)
        ensures { self.new ≡ take len self.old }
    {
        self.edges.truncate(len);
    }
}
