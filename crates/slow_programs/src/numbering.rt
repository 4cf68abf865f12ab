//! Counters and clocks, by a look at all operations.
ghost use Rattle.std.specs.Prelude.{◌≡◌, ◌≤◌, IfOk, IsErrOf};
ghost use Rattle.fixed_numbers.specs.declared.limits.TheConstants.{MAX_COUNTER};
ghost use Rattle.op_model.specs.Causality.{clock_of as clock_of_list};
ghost use Rattle.op_model.specs.Made.{greatest_counter as greatest_in};
ghost use Rattle.op_ids.specs.Clock.{IsOverfull};

use op_ids::{Clock, ClockError};
use op_model::Op;
use std::alloc::Global;

/// The greatest counter of the operations, or 0.
pub fn greatest_counter(ops: &[Op]) -> u64
    ensures value { result ≡ greatest_in ops.now }
    ensures in_range { result ≤ MAX_COUNTER }
{
    let mut greatest = 0;
    let mut i = ops.len();
    while i > 0 {
        i -= 1;
        greatest = ops[i].id.counter().max(greatest);
    }
    greatest
}

/// How many operations each replica has. `Limit` where they are more than a clock counts.
pub fn clock_of(alloc: Global, ops: &[Op]) -> Result<Clock, ClockError>
    ensures ok { IfOk result (λ clock. clock ≡ clock_of_list ops.now) }
    ensures limit { IsErrOf result ClockError.Limit → IsOverfull (clock_of_list ops.now) }
{
    let mut clock = Clock::new(alloc);
    let mut i = ops.len();
    while i > 0 {
        i -= 1;
        clock.advance(ops[i].id.replica())?;
    }
    Ok(clock)
}
