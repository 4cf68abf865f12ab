//! Operations of the replica, as many as a commit is to have.
use crate::test_rows::two_of;
use crate::test_store::replica;
use op_ids::{Clock, OpId};
use op_model::{Body, Op};
use std::alloc::Global;
use std::test::Fail;

/// The clock of `count` operations of the replica.
fn clock(alloc: Global, count: u64) -> Result<Clock, Fail> {
    let mut entries = Vec::new(alloc);
    if count > 0 {
        entries.push((replica()?, count))?;
    }
    Ok(Clock::from_entries(entries).ok_or("a clock")?)
}

/// The operation with this counter, behind those before it.
fn op(alloc: Global, counter: u64, body: Body) -> Result<Op, Fail> {
    let id = OpId::try_new(counter, replica()?).ok_or("a counter")?;
    let deps = clock(alloc, counter.saturating_sub(1))?;
    Ok(Op {
        id,
        doc: 1,
        token: None,
        deps,
        body,
    })
}

/// Appends the inserts with these counters, each behind the one before it.
fn put_inserts(alloc: Global, first: u32, last: u32, ops: &mut Vec<Op>) -> Result<(), Fail> {
    for counter in u64::from(first)..u64::from(last) + 1 {
        let origin = OpId::try_new(counter.saturating_sub(1), replica()?);
        ops.push(op(alloc, counter, Body::Insert { origin, value: 'a' })?)?;
    }
    Ok(())
}

/// Appends removes of the first character, with these counters.
fn put_removes(alloc: Global, first: u32, last: u32, ops: &mut Vec<Op>) -> Result<(), Fail> {
    for counter in u64::from(first)..u64::from(last) + 1 {
        let target = OpId::try_new(1, replica()?).ok_or("a counter")?;
        ops.push(op(alloc, counter, Body::Remove { target })?)?;
    }
    Ok(())
}

/// The inserts from one counter to another.
pub(crate) fn inserts(alloc: Global, words: &str) -> Result<Vec<Op>, Fail> {
    let (first, last) = two_of(words)?;
    let mut ops = Vec::new(alloc);
    put_inserts(alloc, first, last, &mut ops)?;
    Ok(ops)
}

/// 4,093 bytes of records: the next one begins with three zeros.
pub(crate) fn filling(alloc: Global) -> Result<Vec<Op>, Fail> {
    let mut ops = Vec::new(alloc);
    put_inserts(alloc, 1, 41, &mut ops)?;
    put_removes(alloc, 42, 48, &mut ops)?;
    Ok(ops)
}
