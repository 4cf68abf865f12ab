//! Whether there is room for the characters of a run. This is known before any memory is taken: the
//! deps are read where they lie.
ghost use Rattle.std.specs.Prelude.{◌≡◌, ◌<◌, ℕ, List, length, Ok, IsOk, true};
ghost use Rattle.op_ids.specs.Clock.{advanced_by, count_of, is_clock};
ghost use Rattle.change_codec.specs.Lent.{deps_of};
ghost use Rattle.change_codec.specs.Reading.{deps_at, entries_at, Reads};
ghost use Rattle.piece_codec.specs.Reading.{first_of, is_count as is_count_of, pair_at};

use crate::fields::{RunHead, RunTail};
use change_codec::{CodecError, take_replica, take_u64};
use fixed_numbers::limits::{MAX_COUNT, MAX_COUNTER, MAX_EDIT, MAX_REPLICAS};
use op_ids::ReplicaId;
use op_ids::laws::replica_is_not_nil;

/// Whether a run can have the number of characters that its tail says, where its deps were tested:
/// from 2 to 256, and the last operation's counter, own count and deps are in their ranges. At most
/// 16 steps; takes no memory.
pub(crate) fn is_count(head: &RunHead, deps: &[u8], tail: &RunTail) -> bool
    requires { IsOk (deps_at deps.now) }
    ensures { result ≡ is_count_of (first_of head.now (deps_of deps.now) tail.now 0)
        tail.now.count }
{
    let count = tail.count;
    if count < 2 || count as usize > MAX_EDIT {
        return false;
    }
    let more = count as u64 - 1;
    head.id.counter() + more <= MAX_COUNTER && can_count(head.id.replica(), deps, more)
}

/// Whether so many operations more of a replica can be counted behind these deps.
fn can_count(replica: ReplicaId, deps: &[u8], more: u64) -> bool
    requires tested { IsOk (deps_at deps.now) }
    requires some { 0 < more }
    requires few { more < 256 }
    ensures { result ≡ is_clock (advanced_by (deps_of deps.now) replica more) }
{
    replica_is_not_nil(replica);
    let (len, own) = counts(replica, deps);
    if own > MAX_COUNT - more {
        return false;
    }
    own > 0 || (len as usize) < MAX_REPLICAS
}

/// How many replicas deps count that were tested, and how many operations of this one.
fn counts(replica: ReplicaId, deps: &[u8]) -> (u8, u64)
    requires { IsOk (deps_at deps.now) }
    ensures len { result.0 ≡ length (deps_of deps.now) }
    ensures own { result.1 ≡ count_of (deps_of deps.now) replica }
    ensures valid { is_clock (deps_of deps.now) ≡ true }
{
    match deps {
        [] => (0, 0),
        [len, entries @ ..] => (*len, own_count(replica.number(), *len, entries)),
    }
}

/// How many operations of the replica with this number these entries count.
fn own_count(replica: u128, entries: u8, bytes: &[u8]) -> u64
    ensures { (low : ℕ) (es : List (ℕ × ℕ)) (end : List ℕ)
        → entries_at entries low bytes.now ≡ Ok (es, end) → result ≡ count_of es replica }
{
    if entries == 0 {
        return 0;
    }
    match take_pair(bytes) {
        Ok((entry, rest)) => {
            if entry.0 == replica {
                return entry.1;
            }
            own_count(replica, entries - 1, rest)
        }
        Err(_) => 0,
    }
}

/// Takes the number of a replica and its count from the front.
#[tactic(auto, unfolding(crate::specs::Reading::pair_at))]
fn take_pair(bytes: &[u8]) -> Result<((u128, u64), &[u8]), CodecError>
    ensures { Reads (λ x. (x.0, x.1.now)) result (pair_at bytes.now) }
{
    match take_replica(bytes) {
        Ok((replica, rest)) => {
            let (count, rest) = take_u64(rest)?;
            Ok(((replica.number(), count), rest))
        }
        Err(fault) => Err(fault),
    }
}
