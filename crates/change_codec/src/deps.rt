//! The clock that an operation depends on.
ghost use Rattle.std.specs.Prelude.{◌≡◌, IfOk, IfErr, IsOk, []};
ghost use Rattle.change_codec.specs.declared.codec_error.CodecError.TheVariants.{Memory};
ghost use Rattle.change_codec.specs.Lent.{deps_of, Collects};
ghost use Rattle.change_codec.specs.Reading.{Reads, only_rest, only_value, count_at, entry_at, entries_at, deps_at};
ghost use Rattle.change_codec.specs.Spelling.{deps_bytes, entry_bytes};
ghost use Rattle.change_codec.specs.Writing.{Appends, HasRoom};

use crate::CodecError;
use crate::id::{put_replica, take_replica};
use crate::number::{put_byte, put_u64, take_byte, take_u64};
use fixed_numbers::limits::{MAX_COUNT, MAX_REPLICAS};
use op_ids::{Clock, ReplicaId};
use std::alloc::Global;

/// What is left of some entries: the replica that they rise above, and their bytes.
#[derive(Clone, Copy, Debug)]
struct Left<'a> {
    low: u128,
    rest: &'a [u8],
}

/// Puts the number of entries, and each of them: its replica, and then its count.
#[tactic(auto, unfolding(crate::specs::Spelling::deps_bytes))]
pub fn put_deps(deps: &Clock, out: &mut Vec<u8>)
    requires { HasRoom out.old (deps_bytes deps.now) }
    ensures { Appends out.old out.new (deps_bytes deps.now) }
{
    put_byte(deps.len() as u8, out);
    for entry in deps.entries() {
        put_entry(*entry, out);
    }
}

#[tactic(auto, unfolding(crate::specs::Spelling::entry_bytes))]
fn put_entry(entry: (ReplicaId, u64), out: &mut Vec<u8>)
    requires { HasRoom out.old (entry_bytes entry) }
    ensures { Appends out.old out.new (entry_bytes entry) }
{
    put_replica(entry.0, out);
    put_u64(entry.1, out);
}

/// Tests the deps at the front, and gives the bytes after them. `Number` (32) for more than 16
/// entries, a nil replica or a count that isn't from 1 to 2^24, `Order` (35) where the replicas
/// don't rise.
pub fn skip_deps(bytes: &[u8]) -> Result<&[u8], CodecError>
    ensures { Reads (λ rest. (deps_of bytes.now, rest.now)) result (deps_at bytes.now) }
{
    let (count, rest) = take_count(bytes)?;
    skip_entries(count, rest)
}

/// The clock of deps that were tested. An error is out of memory (1), which none of them needs.
pub(crate) fn collect_deps(alloc: Global, bytes: &[u8]) -> Result<Clock, CodecError>
    requires { IsOk (deps_at bytes.now) }
    ensures ok { IfOk result (λ clock. clock ≡ deps_of bytes.now) }
    ensures err { IfErr result (λ error. error ≡ Memory) }
    ensures none { deps_of bytes.now ≡ [] → IsOk result }
{
    let (count, rest) = take_count(bytes)?;
    if count == 0 {
        return Ok(Clock::new(alloc));
    }
    let entries = collect_entries(alloc, count, rest)?;
    Ok(Clock::from_entries(entries).unwrap())
}

fn skip_entries(count: u8, bytes: &[u8]) -> Result<&[u8], CodecError>
    ensures { Reads (λ rest. rest.now) result (only_rest (entries_at count 0 bytes.now)) }
{
    let mut left = Left {
        low: 0,
        rest: bytes,
    };
    for _ in 0..count {
        match take_next(&left) {
            Ok((_, after)) => left = after,
            Err(fault) => return Err(fault),
        }
    }
    Ok(left.rest)
}

fn collect_entries(
    alloc: Global,
    count: u8,
    bytes: &[u8],
) -> Result<Vec<(ReplicaId, u64)>, CodecError>
    ensures { Collects (λ entries. entries.items) result
        (only_value (entries_at count 0 bytes.now)) }
{
    let mut entries = Vec::with_capacity(alloc, count as usize)?;
    let mut left = Left {
        low: 0,
        rest: bytes,
    };
    for _ in 0..count {
        match take_next(&left) {
            Ok((entry, after)) => {
                entries.push_reserved(entry);
                left = after;
            }
            Err(fault) => return Err(fault),
        }
    }
    Ok(entries)
}

#[tactic(auto, unfolding(crate::specs::Reading::count_at))]
fn take_count(bytes: &[u8]) -> Result<(u8, &[u8]), CodecError>
    ensures { Reads (λ x. (x.0, x.1.now)) result (count_at bytes.now) }
{
    let (count, rest) = take_byte(bytes)?;
    if count as usize > MAX_REPLICAS {
        return Err(CodecError::Number);
    }
    Ok((count, rest))
}

/// Takes the next of some entries, and gives what is left of them.
fn take_next<'a>(left: &Left<'a>) -> Result<((ReplicaId, u64), Left<'a>), CodecError>
    ensures read { Reads (λ x. (x.0, x.1.rest.now)) result
        (entry_at left.now.low left.now.rest.now) }
    ensures low { IfOk result (λ x. x.1.low ≡ x.0.0) }
{
    match take_entry(left.low, left.rest) {
        Ok((entry, rest)) => {
            let low = entry.0.number();
            Ok((entry, Left { low, rest }))
        }
        Err(fault) => Err(fault),
    }
}

#[tactic(auto, unfolding(crate::specs::Reading::entry_at))]
fn take_entry(low: u128, bytes: &[u8]) -> Result<((ReplicaId, u64), &[u8]), CodecError>
    ensures { Reads (λ x. (x.0, x.1.now)) result (entry_at low bytes.now) }
{
    match take_replica(bytes) {
        Ok((replica, rest)) => {
            if replica.number() <= low {
                return Err(CodecError::Order);
            }
            let (count, rest) = take_u64(rest)?;
            if count == 0 || count > MAX_COUNT {
                return Err(CodecError::Number);
            }
            Ok(((replica, count), rest))
        }
        Err(fault) => Err(fault),
    }
}
