//! What a hub answers to what takes no other one.
use crate::asks::Ask;
use crate::play_run::count_replies;
use crate::test_hubs::{Failing, commit, insert, insert_under, new_disk, number_of, open, replica};
use disk_trait::{Disk, MemDisk};
use locked_replica::Hub;
use op_ids::{Clock, OpId, Token};
use op_model::{Action, Body, Op};
use replica_core::{Merged, Ticket};
use std::alloc::Global;

/// What a hub answers.
pub(crate) fn answer_alone(alloc: Global, hub: &mut Failing, ask: &Ask) -> Option<usize> {
    match ask {
        Ask::Insert(at, value) => refusal(hub, insert(alloc, *at, *value, 1)),
        Ask::InsertMany(at, count) => refusal(hub, insert(alloc, *at, 'a', *count)),
        Ask::Fill(count) => fill(alloc, hub, *count),
        Ask::Under(token, value) => end_of_new(hub, under(alloc, *token, *value)),
        Ask::Again(token, value, end, rev) => {
            is_known(hub, under(alloc, *token, *value), *end, *rev)
        }
        Ask::MergeOf(last, text, index) => {
            merged(hub, op_of(alloc, *last, text, *index, &Clock::new(alloc)))
        }
        Ask::MergeSecond(counter, doc, is_behind) => {
            merged(hub, second(alloc, *counter, *doc, *is_behind))
        }
        Ask::Run(calls, count) => count_replies(alloc, hub, calls, *count),
        _ => Some(told(hub, ask)),
    }
}

/// What a hub answers to what takes no memory of the test.
fn told(hub: &mut Failing, ask: &Ask) -> usize {
    match ask {
        Ask::Begin => number_of(hub.begin()),
        Ask::Step => number_of(hub.device_step()),
        Ask::Settle => number_of(hub.settle()),
        Ask::Commit => commit(hub),
        Ask::Shows(text) => shows(hub, text) as usize,
        Ask::Len => hub.list().len(),
        Ask::Replicas => hub.clock().len(),
        Ask::Settled => hub.settled(),
        _ => hub.have().is_ok() as usize,
    }
}

/// The number of the refusal of an edit, or 0.
fn refusal<D: Disk>(hub: &mut Hub<D>, edit: Option<Action>) -> Option<usize> {
    Some(number_of(hub.edit(1, &edit?)))
}

/// The number of the first refusal of so many inserts of 256 characters, or 0.
fn fill(alloc: Global, hub: &mut Failing, count: u32) -> Option<usize> {
    for i in 0..count {
        let number = refusal(hub, insert(alloc, i.saturating_mul(256), 'a', 256))?;
        if number != 0 {
            return Some(number);
        }
    }
    Some(0)
}

/// The insert of a character at the beginning, under a token that ends with this byte.
fn under(alloc: Global, last: u8, value: char) -> Option<Action> {
    let token = Token::read([0, 0, 0, 0, 0, 0, 0, 0, 0, 0, 0, 0, 0, 0, 0, last]);
    insert_under(alloc, token, 0, value, 1)
}

/// The end of the ticket of an edit that is made now.
fn end_of_new(hub: &mut Failing, edit: Option<Action>) -> Option<usize> {
    match hub.edit(1, &edit?) {
        Ok(ticket) if !ticket.known => Some(ticket.end),
        _ => None,
    }
}

/// Whether an edit has the ticket of one that was made before, with this end and this rev.
fn is_known(hub: &mut Failing, edit: Option<Action>, end: usize, rev: usize) -> Option<usize> {
    let wanted = Ticket {
        end,
        rev,
        known: true,
    };
    match hub.edit(1, &edit?) {
        Ok(ticket) => Some((ticket == wanted) as usize),
        Err(_) => None,
    }
}

/// What a merge answers: 0 applied, 2 known, 3 early, or the number of the refusal.
fn merged(hub: &mut Failing, op: Option<Op>) -> Option<usize> {
    Some(match hub.merge(40, op?) {
        Ok(Merged::Applied) => 0,
        Ok(Merged::Known) => 2,
        Ok(Merged::Early) => 3,
        Err(refusal) => refusal.number() as usize,
    })
}

/// The hub of a new replica that typed these characters, each in front of the others, all settled.
fn typed(alloc: Global, last: u8, text: &str) -> Option<Box<Hub<MemDisk>>> {
    let mut hub = open(alloc, new_disk(alloc, last, 65_536, 1_024)?)?;
    for value in text.chars() {
        if refusal(&mut hub, insert(alloc, 0, value, 1)) != Some(0) {
            return None;
        }
    }
    if commit(&mut hub) != 0 {
        return None;
    }
    Some(hub)
}

/// The operation at an index of those that such a replica tells a peer with this clock.
pub(crate) fn op_of(
    alloc: Global,
    last: u8,
    text: &str,
    index: usize,
    clock: &Clock,
) -> Option<Op> {
    let ops = typed(alloc, last, text)?.tell(clock).ok()?;
    ops.get(index)?.copy().ok()
}

/// An insert of replica 2 that depends on its first operation, and stands behind the first one of
/// replica 1 if that is said.
fn second(alloc: Global, counter: u64, doc: u32, is_behind: bool) -> Option<Op> {
    let mut deps = Clock::new(alloc);
    deps.advance(replica(2)?).ok()?;
    let origin = if is_behind {
        OpId::try_new(1, replica(1)?)
    } else {
        None
    };
    Some(Op {
        id: OpId::try_new(counter, replica(2)?)?,
        doc,
        token: None,
        deps,
        body: Body::Insert { origin, value: 'q' },
    })
}

/// Whether document 1 shows this text.
fn shows(hub: &Failing, wanted: &str) -> bool {
    match hub.text(1) {
        Ok(text) => text.as_slice().iter().copied().eq(wanted.chars()),
        Err(_) => false,
    }
}
