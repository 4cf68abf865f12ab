//! The clock of what a peer has or was sent.
ghost use Rattle.std.specs.Prelude.{◌≡◌, IfOk, OnOk, IsErrOf, Some, None};
ghost use Rattle.op_ids.specs.declared.clock_error.ClockError.TheVariants.{Limit};
ghost use Rattle.causal_sync.specs.Sent.{counted, sent};

use fixed_numbers::limits::MAX_COUNT;
use op_ids::{Clock, ClockError};
use op_model::Op;
use std::alloc::Global;

/// The clock joined with each of the operations. `Limit` (7) where it would name a seventeenth
/// replica or hold a count above 2^24; `Memory` (1) may stand in place of anything.
pub(crate) fn clock_with(alloc: Global, base: &Clock, ops: &[Op]) -> Result<Clock, ClockError>
    ensures ok { IfOk result (λ clock. sent base.now ops.now ≡ Some clock) }
    ensures limit { IsErrOf result Limit → sent base.now ops.now ≡ None }
{
    let mut clock = base.copy()?;
    for op in ops {
        count(alloc, &mut clock, op)?;
    }
    Ok(clock)
}

/// Joins a clock with an operation.
fn count(alloc: Global, clock: &mut Clock, op: &Op) -> Result<(), ClockError>
    ensures ok { OnOk result (counted clock.old op.now ≡ Some clock.new) }
    ensures limit { IsErrOf result Limit → counted clock.old op.now ≡ None }
{
    let replica = op.id.replica();
    let before = op.deps.get(replica);
    if before >= MAX_COUNT {
        return Err(ClockError::Limit);
    }
    let mut entries = Vec::with_capacity(alloc, 1)?;
    entries.push_reserved((replica, before + 1));
    clock.join(&Clock::from_entries(entries).unwrap())
}
