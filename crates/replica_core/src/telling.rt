//! What a peer lacks.
ghost use Rattle.std.specs.Prelude.{◌≡◌, ◌≤◌, ◌==◌, length, take, true, IfOk};
ghost use Rattle.op_model.specs.Causality.{IsCausallyClosed};
ghost use Rattle.op_model.specs.Telling.{reach, untold as untold_of};
ghost use Rattle.replica_core.specs.Deciding.{AreCounted};
ghost use Rattle.replica_core.specs.Indexes.{IsIndexOf};
ghost use Rattle.replica_core.specs.Telling.{IsNextUntold};

use crate::index::Index;
use crate::knowledge::Knowledge;
use crate::maker::count_below;
use fixed_numbers::limits::MAX_TOLD;
use op_ids::{Clock, ReplicaId};
use op_model::Op;
use run_list::RunSlice;
use std::alloc::{AllocError, Global};

/// Of the first `settled` operations of a causally closed list, with its clock and its index, the
/// first ones, at most `MAX_TOLD`, that a peer's clock doesn't count, and how many operations the
/// last of them needs. An error is out of memory (1). For each that is told a search by halves in
/// the indexes of each replica, and what `RunSlice::get` costs; no other operation is looked at.
pub(crate) fn untold(
    alloc: Global,
    peer: &Clock,
    ops: &RunSlice<'_>,
    known: &Knowledge<'_>,
    settled: usize,
) -> Result<(Vec<Op>, usize), AllocError>
    requires counted { AreCounted ops.now known.now.clock.now known.now.index.now }
    requires within { settled ≤ length ops.now }
    ensures told { IfOk result (λ told.
        told.0.items ≡ untold_of peer.now (take settled ops.now)) }
    ensures reached { IfOk result (λ told. told.1 ≡ reach peer.now (take settled ops.now)) }
    ensures within { IfOk result (λ told. told.1 ≤ settled) }
{
    let mut found = Vec::new(alloc);
    let mut from = 0;
    while found.len() < MAX_TOLD {
        let next = next_untold(peer, ops, known.clock, known.index, from);
        if next >= settled {
            return Ok((found, from));
        }
        let op = ops.get(next)?;
        found.push(op)?;
        from = next + 1;
    }
    Ok((found, from))
}

/// The index of the first operation, from an index on, that a peer's clock doesn't count, or the
/// length of the list. For each replica a search by halves.
fn next_untold(peer: &Clock, ops: &RunSlice<'_>, clock: &Clock, index: &Index, from: usize) -> usize
    requires { AreCounted ops.now clock.now index.now }
    ensures { IsNextUntold peer.now (λ op. true) ops.now from result }
{
    let mut next = ops.len();
    for entry in clock.entries() {
        next = next.min(next_of(peer, ops, index, entry.0, from));
    }
    next
}

/// The index of a replica's first operation, from an index on, that a peer's clock doesn't count,
/// or the length of the list. A search by halves.
fn next_of(
    peer: &Clock,
    ops: &RunSlice<'_>,
    index: &Index,
    replica: ReplicaId,
    from: usize,
) -> usize
    requires closed { IsCausallyClosed ops.now }
    requires index { IsIndexOf index.now ops.now }
    ensures { IsNextUntold peer.now (λ op. op.id.replica == replica) ops.now from result }
{
    match index.places_of(replica) {
        Some(places) => {
            let known = peer.get(replica) as usize;
            let at = count_below(places, from).max(known);
            if at < places.len() {
                places[at] as usize
            } else {
                ops.len()
            }
        }
        None => ops.len(),
    }
}
