//! Numbers and what stands beside them, as JSON.
ghost use Rattle.std.specs.Prelude.{◌++◌, decimal};
ghost use Rattle.session_lines.specs.Counting.{part};
ghost use Rattle.session_lines.specs.Putting.{Puts};

use crate::quoted::put;
use itoa::Buffer;
use std::alloc::AllocError;

/// Puts the digits of a number.
pub(crate) fn put_number(number: u64, out: &mut Vec<u8>) -> Result<(), AllocError>
    ensures { Puts result out.old out.new (decimal number) }
{
    put(Buffer::new().format(number).as_bytes(), out)
}

/// Puts a number between what stands before it and what stands after it.
pub(crate) fn put_numbered(
    before: &[u8],
    number: u64,
    after: &[u8],
    out: &mut Vec<u8>,
) -> Result<(), AllocError>
    ensures { Puts result out.old out.new (before.now ++ (decimal number ++ after.now)) }
{
    put(before, out)?;
    put_number(number, out)?;
    put(after, out)
}

/// Puts a number and its limit, each after what stands before it.
pub(crate) fn put_part(
    before: &[u8],
    number: u64,
    between: &[u8],
    limit: u64,
    out: &mut Vec<u8>,
) -> Result<(), AllocError>
    ensures { Puts result out.old out.new (part before.now number between.now limit) }
{
    put_numbered(before, number, between, out)?;
    put_number(limit, out)
}
