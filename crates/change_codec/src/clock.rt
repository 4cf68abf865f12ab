//! Clocks that stand by themselves, as they do in an operation.
ghost use Rattle.std.specs.Prelude.{◌≡◌, ◌++◌, OnOk, OnErr};
ghost use Rattle.change_codec.specs.Lent.{Gives};
ghost use Rattle.change_codec.specs.Reading.{deps_at};
ghost use Rattle.change_codec.specs.Spelling.{deps_bytes};

use crate::CodecError;
use crate::deps::{collect_deps, put_deps, skip_deps};
use op_ids::Clock;
use std::alloc::{AllocError, Global};

/// Appends a clock: its number of entries in one byte, and each replica in sixteen bytes with its
/// count in eight. An error is out of memory (1), and leaves the bytes as they were.
pub fn put_clock(clock: &Clock, out: &mut Vec<u8>) -> Result<(), AllocError>
    ensures ok { OnOk result (out.new.items ≡ out.old.items ++ deps_bytes clock.now) }
    ensures err { OnErr result (out.new.items ≡ out.old.items) }
{
    out.reserve(1 + 24 * clock.len())?;
    put_deps(clock, out);
    Ok(())
}

/// Takes the clock at the front, and gives the bytes after it. `Length` (30) where the bytes end
/// before it does; `Number` (32) for more than 16 entries, a nil replica or a count that isn't from
/// 1 to 2^24; `Order` (35) where the replicas don't rise; the first fault decides. `Memory` (1) may
/// only stand in place of a clock. Two passes over its entries.
pub fn take_clock(alloc: Global, bytes: &[u8]) -> Result<(Clock, &[u8]), CodecError>
    ensures { Gives (λ x. (x.0, x.1.now)) result (deps_at bytes.now) }
{
    let rest = skip_deps(bytes)?;
    let clock = collect_deps(alloc, bytes)?;
    Ok((clock, rest))
}
