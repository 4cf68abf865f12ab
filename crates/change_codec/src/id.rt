//! Ids of operations and replicas.
ghost use Rattle.std.specs.Prelude.{◌<◌, ◌≤◌, IfOk};
ghost use Rattle.std.specs.Int.{w128};
ghost use Rattle.fixed_numbers.specs.declared.limits.TheConstants.{MAX_COUNTER};
ghost use Rattle.change_codec.specs.Spelling.{number_bytes, id_bytes};
ghost use Rattle.change_codec.specs.Reading.{Reads, counter_at, replica_at, id_at};
ghost use Rattle.change_codec.specs.Writing.{Appends, HasRoom};

use crate::CodecError;
use crate::number::{put_bytes, put_u64, take_sixteen, take_u64};
use fixed_numbers::limits::MAX_COUNTER;
use op_ids::{OpId, ReplicaId};

/// Puts the sixteen bytes of a replica.
#[tactic(auto, unfolding(crate::specs::Spelling::number_bytes))]
pub(crate) fn put_replica(replica: ReplicaId, out: &mut Vec<u8>)
    requires { HasRoom out.old (number_bytes w128 replica) }
    ensures { Appends out.old out.new (number_bytes w128 replica) }
{
    put_bytes(&replica.bytes(), out);
}

/// Puts an id: its counter, and then its replica.
#[tactic(auto, unfolding(crate::specs::Spelling::id_bytes))]
pub fn put_id(id: OpId, out: &mut Vec<u8>)
    requires { HasRoom out.old (id_bytes id) }
    ensures { Appends out.old out.new (id_bytes id) }
{
    put_u64(id.counter(), out);
    put_replica(id.replica(), out);
}

/// Takes a replica from the front. `Number` (32) for the nil one.
#[tactic(auto, unfolding(crate::specs::Reading::replica_at))]
pub fn take_replica(bytes: &[u8]) -> Result<(ReplicaId, &[u8]), CodecError>
    ensures { Reads (λ x. (x.0, x.1.now)) result (replica_at bytes.now) }
{
    let (number, rest) = take_sixteen(bytes)?;
    match ReplicaId::read(number) {
        Some(replica) => Ok((replica, rest)),
        None => Err(CodecError::Number),
    }
}

/// Takes an id from the front: its counter, and then its replica. `Number` (32) where the counter
/// isn't from 1 to 2^48 - 1, or for the nil replica.
#[tactic(auto, unfolding(crate::specs::Reading::id_at))]
pub fn take_id(bytes: &[u8]) -> Result<(OpId, &[u8]), CodecError>
    ensures { Reads (λ x. (x.0, x.1.now)) result (id_at bytes.now) }
{
    let (counter, rest) = take_counter(bytes)?;
    match take_replica(rest) {
        Ok((replica, rest)) => Ok((OpId::new(counter, replica), rest)),
        Err(fault) => Err(fault),
    }
}

#[tactic(auto, unfolding(crate::specs::Reading::counter_at))]
fn take_counter(bytes: &[u8]) -> Result<(u64, &[u8]), CodecError>
    ensures exact { Reads (λ x. (x.0, x.1.now)) result (counter_at bytes.now) }
    ensures above_zero { IfOk result (λ x. 0 < x.0) }
    ensures in_range { IfOk result (λ x. x.0 ≤ MAX_COUNTER) }
{
    let (counter, rest) = take_u64(bytes)?;
    if counter == 0 || counter > MAX_COUNTER {
        return Err(CodecError::Number);
    }
    Ok((counter, rest))
}
