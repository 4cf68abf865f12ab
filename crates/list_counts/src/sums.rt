//! Sums over clocks.
ghost use Rattle.std.specs.Prelude.{◌≡◌};
ghost use Rattle.op_ids.specs.Clock.{total_of};
ghost use Rattle.list_counts.specs.Counts.{lacking};

use op_ids::Clock;

/// How many operations a clock counts in all.
pub(crate) fn total(clock: &Clock) -> u64
    ensures { result ≡ total_of clock.now }
{
    let mut total = 0;
    for entry in clock.entries() {
        total += entry.1;
    }
    total
}

/// How many of the operations that are here a clock doesn't count.
pub(crate) fn lacking(clock: &Clock, here: &Clock) -> u64
    ensures { result ≡ lacking clock.now here.now }
{
    let mut lacks = 0;
    for entry in here.entries() {
        lacks += entry.1.saturating_sub(clock.get(entry.0));
    }
    lacks
}
