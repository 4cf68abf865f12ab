//! Links that have just started, and what they hear.
use crate::test_names::{place, replica};
use crate::test_ops::op;
use causal_sync::{Heard, Link, LinkError, Ops};
use op_ids::Clock;
use std::alloc::Global;
use std::test::Fail;

/// A link of a replica that has just started. In a box, so that a test which returns early drops a
/// box: that a link is dropped is then proved once, and not at each return.
pub(crate) fn started(alloc: Global, own: u8) -> Result<Box<Link>, Fail> {
    let link = Link::start(alloc, replica(own)?)?;
    Ok(Box::new(alloc, link)?)
}

/// The number of a refusal; 0 where there is none.
pub(crate) fn number(answer: Result<(), LinkError>) -> u8 {
    match answer {
        Ok(()) => 0,
        Err(fault) => fault.number(),
    }
}

/// The clock of so many operations of the replica, at most one.
pub(crate) fn clock(alloc: Global, count: u64) -> Result<Clock, Fail> {
    let (_, clock) = place(alloc, count.saturating_add(1))?;
    Ok(clock)
}

/// What operations are: the first insert, or both in one run.
fn name_of_ops(alloc: Global, ops: &Ops) -> Result<&'static str, Fail> {
    let [piece] = ops.as_slice() else {
        return Ok("another");
    };
    if *piece.first() != op(alloc, 1, "1 insert 0 a")? {
        return Ok("another");
    }
    Ok(match piece.others() {
        [] => "operation",
        ['b'] => "run",
        _ => "another",
    })
}

/// What a clock is: that of no operation, or of the first.
fn name_of_clock(alloc: Global, found: &Clock) -> Result<&'static str, Fail> {
    if found.is_empty() {
        return Ok("empty have");
    }
    Ok(if *found == clock(alloc, 1)? {
        "have"
    } else {
        "another"
    })
}

/// What was heard, of the frames of a conversation.
fn name_of(alloc: Global, heard: &Heard) -> Result<&'static str, Fail> {
    match heard {
        Heard::Hello(name) => Ok(if *name == replica(1)? {
            "hello"
        } else {
            "another"
        }),
        Heard::Have(clock) => name_of_clock(alloc, clock),
        Heard::Ops(ops) => name_of_ops(alloc, ops),
        Heard::Bye => Ok("bye"),
    }
}

/// What a link hears next, of the frames of a conversation.
pub(crate) fn next_of(alloc: Global, link: &mut Link) -> Result<&'static str, Fail> {
    match link.next() {
        Some(heard) => name_of(alloc, &heard),
        None => Ok("nothing"),
    }
}
