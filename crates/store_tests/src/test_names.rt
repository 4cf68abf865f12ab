//! The replicas of these tests, and the ids of the first one's operations.
use op_ids::{Clock, OpId, ReplicaId};
use std::alloc::Global;
use std::test::Fail;

/// The replica whose last byte is this number.
pub(crate) fn replica(last: u8) -> Result<ReplicaId, Fail> {
    let name = [0, 0, 0, 0, 0, 0, 0x40, 0, 0x80, 0, 0, 0, 0, 0, 0, last];
    Ok(ReplicaId::read(name).ok_or("nil")?)
}

/// The first replica's id with this counter.
pub(crate) fn id(counter: u64) -> Result<OpId, Fail> {
    Ok(OpId::try_new(counter, replica(1)?).ok_or("counter")?)
}

/// That id, and the clock that counts one operation before it, unless it is the first.
pub(crate) fn place(alloc: Global, counter: u64) -> Result<(OpId, Clock), Fail> {
    let id = id(counter)?;
    let mut deps = Clock::new(alloc);
    if counter > 1 {
        deps.advance(id.replica())?;
    }
    Ok((id, deps))
}
