//! Bytes that are put at the end of a buffer.
ghost use Rattle.span_export.specs.Putting.{Puts, if_wanted};

use std::alloc::AllocError;

/// A page with paragraphs that has more bytes than this takes no more text: 268,435,456, which only
/// the tags of marks over very many lines reach.
pub(crate) const MOST_BYTES: usize = 268_435_456;

/// Puts bytes after what is there.
pub(crate) fn put(bytes: &[u8], out: &mut Vec<u8>) -> Result<(), AllocError>
    ensures { Puts result out.old out.new bytes.now }
{
    out.extend_from_slice(bytes)
}

/// Puts bytes after what is there, where they are wanted.
pub(crate) fn put_if(wanted: bool, bytes: &[u8], out: &mut Vec<u8>) -> Result<(), AllocError>
    ensures { Puts result out.old out.new (if_wanted wanted bytes.now) }
{
    if wanted { put(bytes, out) } else { Ok(()) }
}
