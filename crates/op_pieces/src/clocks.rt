//! Whether one clock is another one with one operation more.
ghost use Rattle.std.specs.Prelude.{◌≡◌};
ghost use Rattle.op_ids.specs.Clock.{advanced, is_same_clock, is_same_entry};

use op_ids::{Clock, ReplicaId};

/// Whether this clock is the other one with one more operation of a replica. At most 16 steps;
/// takes no memory.
pub(crate) fn is_one_more(clock: &Clock, other: &Clock, replica: ReplicaId) -> bool
    ensures { result ≡ is_same_clock clock.now (advanced other.now replica) }
{
    are_advanced(clock.entries(), other.entries(), replica)
}

fn are_advanced(
    entries: &[(ReplicaId, u64)],
    others: &[(ReplicaId, u64)],
    replica: ReplicaId,
) -> bool
    ensures { result ≡ is_same_clock entries.now (advanced others.now replica) }
{
    let [entry, rest @ ..] = entries else {
        return false;
    };
    let [other, behind @ ..] = others else {
        return is_entry(entry, replica, 1) && rest.is_empty();
    };
    if replica < other.0 {
        return is_entry(entry, replica, 1) && rest == others;
    }
    if other.0 == replica {
        return entry.0 == replica && entry.1 > 0 && entry.1 - 1 == other.1 && rest == behind;
    }
    is_entry(entry, other.0, other.1) && are_advanced(rest, behind, replica)
}

/// Whether an entry counts so many operations of a replica.
fn is_entry(entry: &(ReplicaId, u64), replica: ReplicaId, count: u64) -> bool
    ensures { result ≡ is_same_entry entry.now (replica, count) }
{
    entry.0 == replica && entry.1 == count
}
