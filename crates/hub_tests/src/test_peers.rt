//! What the tests ask of one replica.
use op_ids::{Clock, OpId, ReplicaId};
use op_model::{Op, Text};
use replica_core::{Merged, Replica, Ticket};
use run_list::{RunList, RunSlice};
use std::alloc::{AllocError, Global};

pub fn bytes_ending(last: u8) -> [u8; 16] {
    let mut bytes = [0; 16];
    bytes[15] = last;
    bytes
}

pub fn replica_id(last: u8) -> Option<ReplicaId> {
    ReplicaId::read(bytes_ending(last))
}

pub fn id_of(counter: u64, last: u8) -> Option<OpId> {
    OpId::try_new(counter, replica_id(last)?)
}

/// What a merge answers: 0 applied, 2 known, 3 early, or the number of the refusal.
pub fn merge(replica: &mut Replica, op: Op) -> usize {
    match replica.merge(40, op) {
        Ok(Merged::Applied) => 0,
        Ok(Merged::Known) => 2,
        Ok(Merged::Early) => 3,
        Err(refusal) => refusal.number() as usize,
    }
}

/// The operation of a replica at an index.
pub fn op_at(replica: &Replica, index: usize) -> Option<Op> {
    op_in(&replica.list(), index)
}

fn op_in(ops: &RunSlice<'_>, index: usize) -> Option<Op> {
    if index >= ops.len() {
        return None;
    }
    match ops.get(index) {
        Ok(op) => Some(op),
        Err(_) => None,
    }
}

/// The operations of a replica from an index on.
pub fn ops_from(alloc: Global, replica: &Replica, from: usize) -> Result<RunList, AllocError> {
    let list = replica.list();
    if from > list.len() {
        return Err(AllocError);
    }
    let mut ops = RunList::new(alloc);
    ops.extend_from(&list, from)?;
    Ok(ops)
}

/// Whether document 1 has a text: 1 or 0.
pub fn has_text(alloc: Global, replica: &Replica, expected: &str) -> Option<usize> {
    let expected: Vec<char> = expected.chars().collect(alloc).ok()?;
    Some((replica.text(1).ok()? == Text::from(expected)) as usize)
}

/// Whether a document has the text that it has at another replica.
pub fn has_text_of(replica: &Replica, other: &Replica, doc: u32) -> Option<bool> {
    Some(replica.text(doc).ok()? == other.text(doc).ok()?)
}

/// How many spans document 1 has.
pub fn spans_of(replica: &Replica) -> Option<usize> {
    Some(replica.spans(1).ok()?.len())
}

/// How many operations are told to a peer that has nothing.
pub fn told_to_none(alloc: Global, replica: &mut Replica) -> Option<usize> {
    Some(replica.tell(&Clock::new(alloc)).ok()?.len())
}

/// How many operations a replica tells a peer with these counts of replicas 1, 2 and 3, if they are
/// those that a look at each one finds.
pub fn told(alloc: Global, replica: &mut Replica, counts: &[u64; 3]) -> Option<usize> {
    let clock = counting(alloc, counts)?;
    let expected = uncounted(alloc, &replica.list(), &clock).ok()?;
    let ops = replica.tell(&clock).ok()?;
    if have_ids(&ops, &expected) {
        Some(ops.len())
    } else {
        None
    }
}

fn counting(alloc: Global, counts: &[u64; 3]) -> Option<Clock> {
    let mut clock = Clock::new(alloc);
    for (i, count) in counts.iter().enumerate() {
        clock.advance_by(replica_id(i as u8 + 1)?, *count).ok()?;
    }
    Some(clock)
}

/// The ids of the first operations, at most 64, that a clock doesn't count, by a look at each.
fn uncounted(alloc: Global, list: &RunSlice<'_>, clock: &Clock) -> Result<Vec<OpId>, AllocError> {
    let mut ids = Vec::new(alloc);
    for i in 0..list.len() {
        let op = list.get(i)?;
        let is_counted = op.deps.get(op.id.replica()) < clock.get(op.id.replica());
        if !is_counted && ids.len() < 64 {
            ids.push(op.id)?;
        }
    }
    Ok(ids)
}

fn have_ids(ops: &[Op], ids: &[OpId]) -> bool {
    ops.len() == ids.len() && ops.iter().zip(ids).all(|(op, id)| op.id.is_same(*id))
}

/// How many operations of each replica the list has.
pub fn clock_of(replica: &Replica) -> Option<Clock> {
    replica.clock().copy().ok()
}

/// Whether this is the clock that a replica tells.
pub fn tells_clock(replica: &mut Replica, expected: &Clock) -> bool {
    match replica.have() {
        Ok(clock) => clock == *expected,
        Err(_) => false,
    }
}

/// Whether a ticket's operations are settled.
pub fn acks(replica: &mut Replica, end: usize) -> bool {
    replica.ack(Ticket {
        end,
        rev: 0,
        known: false,
    })
}
