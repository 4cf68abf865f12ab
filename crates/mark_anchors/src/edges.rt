//! Searches among edges in order.
ghost use Rattle.std.specs.Prelude.{◌≡◌, ◌≤◌, ◌++◌, ◌&&◌, true, false, filter, length, slice_range};
ghost use Rattle.std.specs.Prelude.{option_to_list, IfOk, OnOk};
ghost use Rattle.std.specs.List.{list_any};
ghost use Rattle.std.specs.List.Sorted.{IsPartitionPoint, IsPermutation};
ghost use Rattle.std.specs.Ordering.{is_lt};
ghost use Rattle.mark_anchors.specs.Edges.{edges_from, AreEdges, AreInOrder};
ghost use Rattle.op_ids.specs.Id.{is_below, is_same};

use crate::edge::{Edge, end_edge, start_edge};
use crate::edge_chunks::EdgeChunks;
use op_ids::OpId;
use op_model::Marking;
use std::alloc::{AllocError, Global};
use std::cmp::Ordering;

/// Of edges in order those of a character. Two searches by halves.
pub(crate) fn at(edges: &[Edge], id: OpId) -> &[Edge]
    requires { AreInOrder edges.now }
    ensures { result.now ≡ filter (λ e. is_same e.id id) edges.now }
{
    let (from, to) = bounds(edges, id);
    &edges[from..to]
}

/// Whether one of these edges is an end just after its character.
pub(crate) fn has_end_after(edges: &[Edge]) -> bool
    ensures { result ≡ list_any (λ e. e.is_end && e.is_after) edges.now }
{
    edges.iter().any(|edge| edge.is_end_after())
}

/// Where the edges of a character begin, and where they end.
fn bounds(edges: &[Edge], id: OpId) -> (usize, usize)
    requires { AreInOrder edges.now }
    ensures rise { result.0 ≤ result.1 }
    ensures within { result.1 ≤ length edges.now }
    ensures between { slice_range edges.now result.0 result.1
        ≡ filter (λ e. is_same e.id id) edges.now }
{
    let from = below(edges, id);
    let to = not_above(edges, id);
    (from, to)
}

/// How many edges stand at characters below this one.
pub(crate) fn below(edges: &[Edge], id: OpId) -> usize
    requires { AreInOrder edges.now }
    ensures bound { result ≤ length edges.now }
    ensures place { IsPartitionPoint (λ e. is_below e.id id ≡ true)
        (λ e. is_below e.id id ≡ false) edges.now result }
{
    edges.partition_point(|edge| edge.id.is_below(id))
}

/// How many edges don't stand at characters above this one.
pub(crate) fn not_above(edges: &[Edge], id: OpId) -> usize
    requires { AreInOrder edges.now }
    ensures bound { result ≤ length edges.now }
    ensures place { IsPartitionPoint (λ e. is_below id e.id ≡ false)
        (λ e. is_below id e.id ≡ true) edges.now result }
{
    edges.partition_point(|edge| !id.is_below(edge.id))
}

/// The edges of these mark operations, in order and in chunks. An error is out of memory (1).
/// Sorts them.
pub(crate) fn edges_of(alloc: Global, markings: &[Marking]) -> Result<EdgeChunks, AllocError>
    ensures { IfOk result (λ edges. AreEdges markings.now edges) }
{
    let mut edges = listed(alloc, markings)?;
    sort(&mut edges);
    EdgeChunks::of(alloc, &edges)
}

/// The edges of these mark operations, in the order of these. An error is out of memory (1).
fn listed(alloc: Global, markings: &[Marking]) -> Result<Vec<Edge>, AllocError>
    ensures { IfOk result (λ edges. edges.items ≡ edges_from 0 markings.now) }
{
    let mut edges = Vec::new(alloc);
    for (i, marking) in markings.iter().enumerate() {
        push(&mut edges, start_edge(&marking.start, i))?;
        push(&mut edges, end_edge(&marking.end, i))?;
    }
    Ok(edges)
}

/// Puts an edge behind others. An error is out of memory (1).
fn push(edges: &mut Vec<Edge>, edge: Option<Edge>) -> Result<(), AllocError>
    ensures { OnOk result (edges.new.items ≡ edges.old.items ++ option_to_list edge) }
{
    if let Some(edge) = edge {
        edges.push(edge)?;
    }
    Ok(())
}

/// Puts edges in order.
fn sort(edges: &mut Vec<Edge>)
    ensures same { IsPermutation edges.old.items edges.new.items }
    ensures order { AreInOrder edges.new.items }
{
    edges.sort_unstable_by(|a, b| order(a, b));
}

/// How two edges stand to one another.
fn order(a: &Edge, b: &Edge) -> Ordering
    ensures { is_lt result ≡ is_below a.now.id b.now.id }
{
    if a.id.is_below(b.id) {
        return Ordering::Less;
    }
    if b.id.is_below(a.id) {
        return Ordering::Greater;
    }
    Ordering::Equal
}
