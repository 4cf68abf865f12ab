//! The clock of a list.
ghost use Rattle.std.specs.Prelude.{◌≡◌, List, ◌++◌, take, true, IfOk, OnOk};
ghost use Rattle.op_ids.specs.Clock.{advanced, IsOverfull};
ghost use Rattle.op_model.specs.declared.op.Op.{Op};
ghost use Rattle.op_model.specs.Causality.{clock_of, is_within_limits};
ghost use Rattle.replica_core.specs.Deciding.{AreCounted};

use crate::index::Index;
use op_ids::{Clock, ClockError, ReplicaId};
use op_model::Op;
use run_list::RunSlice;
use std::alloc::{AllocError, Global};

/// How many operations each replica has among the first `count` of a causally closed list, with its
/// clock and its index. An error is out of memory (1). A search by halves for each replica.
pub(crate) fn clock_of_front(
    alloc: Global,
    ops: &RunSlice<'_>,
    clock: &Clock,
    index: &Index,
    count: usize,
) -> Result<Clock, AllocError>
    requires { AreCounted ops.now clock.now index.now }
    ensures { IfOk result (λ front. front ≡ clock_of (take count ops.now)) }
{
    let mut entries = Vec::new(alloc);
    for entry in clock.entries() {
        let made = index.count_before(ops, entry.0, count) as u64;
        if made > 0 {
            entries.push((entry.0, made))?;
        }
    }
    match Clock::from_entries(entries) {
        Some(front) => Ok(front),
        None => unreachable!(),
    }
}

/// Counts operations that come behind others, with which they keep the limits of a store. An error
/// is out of memory (1).
pub(crate) fn count_all(clock: &mut Clock, ops: &[Op]) -> Result<(), AllocError>
    requires { (earlier : List Op) × (clock.old ≡ clock_of earlier)
        × (is_within_limits (earlier ++ ops.now) ≡ true) }
    ensures { OnOk result ((earlier : List Op) → clock.old ≡ clock_of earlier
        → clock.new ≡ clock_of (earlier ++ ops.now)) }
{
    for op in ops {
        advance(clock, op.id.replica())?;
    }
    Ok(())
}

/// Counts one more operation of a replica, for which the clock has room. An error is out of memory
/// (1). At most 16 steps.
pub(crate) fn advance(clock: &mut Clock, replica: ReplicaId) -> Result<(), AllocError>
    requires { IsOverfull (advanced clock.old replica) → ⊥ }
    ensures { OnOk result (clock.new ≡ advanced clock.old replica) }
{
    match clock.advance(replica) {
        Ok(()) => Ok(()),
        Err(ClockError::Memory) => Err(AllocError),
        Err(ClockError::Limit) => unreachable!(),
    }
}
