//! Bytes that are put at the end of a buffer.
ghost use Rattle.std.specs.Prelude.{decimal};
ghost use Rattle.file_listing.specs.Listing.{Puts, member};

use itoa::Buffer;
use std::alloc::AllocError;

/// Puts bytes after what is there.
pub(crate) fn put(bytes: &[u8], out: &mut Vec<u8>) -> Result<(), AllocError>
    ensures { Puts result out.old out.new bytes.now }
{
    out.extend_from_slice(bytes)
}

/// Puts a number in decimal digits.
fn put_number(number: u64, out: &mut Vec<u8>) -> Result<(), AllocError>
    ensures { Puts result out.old out.new (decimal number) }
{
    put(Buffer::new().format(number).as_bytes(), out)
}

/// Puts what stands before a number, and the number.
pub(crate) fn put_member(before: &[u8], number: u64, out: &mut Vec<u8>) -> Result<(), AllocError>
    ensures { Puts result out.old out.new (member before.now number) }
{
    put(before, out)?;
    put_number(number, out)
}
