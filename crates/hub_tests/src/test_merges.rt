//! What the tests ask of a peer that takes another one.
use crate::replica_asks::Ask;
use crate::test_peers::{clock_of, has_text_of, id_of, merge, op_at, ops_from, tells_clock};
use op_ids::{Clock, OpId};
use op_model::{Body, Op};
use replica_core::Replica;
use std::alloc::Global;

/// The operation that a merge takes.
pub fn brought(alloc: Global, peers: &[Replica], ask: &Ask) -> Option<Op> {
    match ask {
        Ask::Merge(from, index) => op_at(peers.get(*from)?, *index),
        Ask::MergeRemove(from) => removal(alloc, peers.get(*from)?),
        Ask::MergeNowhere(from) => nowhere(peers.get(*from)?),
        Ask::MergeSecond(from, counter, doc, third) => {
            let origin = match third {
                Some(third) => Some(first_id(peers.get(*third)?)?),
                None => None,
            };
            second(peers.get(*from)?, *counter, *doc, origin)
        }
        _ => None,
    }
}

pub fn merge_into(peers: &mut Vec<Replica>, peer: usize, op: Option<Op>) -> Option<usize> {
    Some(merge(peers.get_mut(peer)?, op?))
}

/// The id of the first operation of a replica.
fn first_id(replica: &Replica) -> Option<OpId> {
    Some(op_at(replica, 0)?.id)
}

/// A remove of a replica's first character, on which it doesn't depend: the first operation of
/// replica 3.
fn removal(alloc: Global, replica: &Replica) -> Option<Op> {
    let target = first_id(replica)?;
    Some(Op {
        id: id_of(9, 3)?,
        doc: 1,
        token: None,
        deps: Clock::new(alloc),
        body: Body::Remove { target },
    })
}

/// The first operation of a replica, but of document 0.
fn nowhere(replica: &Replica) -> Option<Op> {
    let mut op = op_at(replica, 0)?;
    op.doc = 0;
    Some(op)
}

/// An insert of a replica that depends on all that it has.
fn second(replica: &Replica, counter: u64, doc: u32, origin: Option<OpId>) -> Option<Op> {
    let id = OpId::try_new(counter, replica.replica())?;
    let value = 'q';
    Some(Op {
        id,
        doc,
        token: None,
        deps: clock_of(replica)?,
        body: Body::Insert { origin, value },
    })
}

/// Gives a peer the operations of another one: 0.
pub fn merge_all(alloc: Global, peers: &mut Vec<Replica>, to: usize, from: usize) -> Option<usize> {
    let count = peers.get(from)?.list().len();
    for index in 0..count {
        let op = op_at(peers.get(from)?, index);
        merge_into(peers, to, op)?;
    }
    Some(0)
}

/// Opens a peer with the operations of another one from an index on: the number of the refusal, or
/// 0.
pub fn open_from(
    alloc: Global,
    peers: &mut Vec<Replica>,
    peer: usize,
    from: usize,
    first: usize,
) -> Option<usize> {
    let ops = ops_from(alloc, peers.get(from)?, first).ok()?;
    let old = peers.get_mut(peer)?;
    match Replica::from_list(alloc, old.replica(), ops) {
        Ok(opened) => {
            *old = opened;
            Some(0)
        }
        Err(refusal) => Some(refusal.number() as usize),
    }
}

/// Whether the clock that a peer tells is another's: 1 or 0.
pub fn has_clock_of(peers: &mut Vec<Replica>, peer: usize, other: usize) -> Option<usize> {
    let clock = clock_of(peers.get(other)?)?;
    Some(tells_clock(peers.get_mut(peer)?, &clock) as usize)
}

/// Whether a document of two peers has one text and one number of operations: 1 or 0.
pub fn is_same(peers: &[Replica], peer: usize, other: usize, doc: u32) -> Option<usize> {
    let one = peers.get(peer)?;
    let other = peers.get(other)?;
    let has_text = has_text_of(one, other, doc)?;
    Some((has_text && one.rev(doc) == other.rev(doc)) as usize)
}
