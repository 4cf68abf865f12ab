//! Where chunks of edges are cut: between two characters.
ghost use Rattle.std.specs.Prelude.{◌≡◌, ◌<◌, ◌≤◌, length, take, drop, IfOk};
ghost use Rattle.mark_anchors.specs.EdgeChunks.{edges_in, AreApart, AreChunks};
ghost use Rattle.mark_anchors.specs.Edges.{AreInOrder};

use crate::edge::Edge;
use crate::edge_chunk::{EdgeChunk, MAX_CHUNK};
use crate::edges::{below, not_above};
use std::alloc::{AllocError, Global};

/// How many first edges of those in order stand before the character of the middle one; or, if
/// there are none, up to it. Two searches by halves.
fn border(edges: &[Edge], middle: usize) -> usize
    requires order { AreInOrder edges.now }
    requires inside { middle < length edges.now }
    ensures some { 0 < result }
    ensures within { result ≤ length edges.now }
    ensures apart { AreApart (take result edges.now) (drop result edges.now) }
{
    let id = edges[middle].id;
    let before = below(edges, id);
    if before > 0 {
        return before;
    }
    not_above(edges, id)
}

/// How many first edges of those in order are a chunk: at most 256, or all those of a character.
fn first_chunk(edges: &[Edge]) -> usize
    requires order { AreInOrder edges.now }
    requires some { 0 < length edges.now }
    ensures some { 0 < result }
    ensures within { result ≤ length edges.now }
    ensures apart { AreApart (take result edges.now) (drop result edges.now) }
{
    if edges.len() <= MAX_CHUNK / 2 {
        return edges.len();
    }
    border(edges, MAX_CHUNK / 2)
}

/// Chunks of edges in order. An error is out of memory (1). A step for each edge.
pub(crate) fn chunks_of(alloc: Global, edges: &[Edge]) -> Result<Vec<EdgeChunk>, AllocError>
    requires { AreInOrder edges.now }
    ensures edges { IfOk result (λ chunks. edges_in chunks.items ≡ edges.now) }
    ensures chunks { IfOk result (λ chunks. AreChunks chunks.items) }
{
    let mut chunks = Vec::new(alloc);
    let mut from = 0;
    while from < edges.len() {
        let rest = &edges[from..];
        let len = first_chunk(rest);
        chunks.push(EdgeChunk::of(alloc, &rest[..len])?)?;
        from += len;
    }
    Ok(chunks)
}

/// Cuts a chunk in two near its middle, if it is full and has edges of several characters. An error
/// is out of memory (1). The edges stay, also after an error.
pub(crate) fn cut(chunks: &mut Vec<EdgeChunk>, i: usize) -> Result<(), AllocError>
    requires chunks { AreChunks chunks.old.items }
    requires inside { i < length chunks.old.items }
    ensures chunks { AreChunks chunks.new.items }
    ensures edges { edges_in chunks.new.items ≡ edges_in chunks.old.items }
{
    let alloc = *chunks.allocator();
    if chunks[i].has_room() {
        return Ok(());
    }
    let edges = chunks[i].edges();
    let len = border(edges, edges.len() / 2);
    if len == edges.len() {
        return Ok(());
    }
    let rest = EdgeChunk::of(alloc, &edges[len..])?;
    chunks.insert(i + 1, rest)?;
    let chunk = &mut chunks[i];
    chunk.truncate(len);
    Ok(())
}
