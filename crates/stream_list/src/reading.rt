//! The reading of a stream.
ghost use Rattle.std.specs.Prelude.{◌≤◌, length, IfOk, IsErrOf};
ghost use Rattle.fixed_numbers.specs.declared.limits.TheConstants.{MAX_STREAM_LENGTH};
ghost use Rattle.stream_list.specs.Streams.{HasNone, HasTooLong, SpellsShort};
ghost use Rattle.stream_list.specs.declared.read_error.ReadError.TheVariants.{Stream, Long};

use crate::read_error::ReadError;
use crate::stream_reader::StreamReader;
use change_codec::Format;
use run_list::RunList;
use std::alloc::Global;

/// The operations that a stream of a format spells, if they are `count`. `Stream` (46) where the
/// bytes aren't the records of its pieces, one after another, or these make up another number of
/// operations; `Long` (47) where they do, and the records of the operations, one by one, take more
/// than 2^30 bytes, as runs are shorter; `Memory` (1) may stand in place of each answer, and says
/// nothing of the bytes.
///
/// One pass over the bytes, which ends at the first record that is none or has too many operations.
/// What it passed is in the list by then: a typed character takes four bytes there, each other
/// operation its record without the token and twelve, and a new token twenty. Until it ends, the
/// bytes of the stream stand in memory twice beside the list; a [`StreamReader`] takes them in
/// parts, of which one alone stands there.
pub fn read_stream(
    alloc: Global,
    format: Format,
    count: u64,
    stream: Vec<u8>,
) -> Result<RunList, ReadError>
    requires { length stream.items ≤ MAX_STREAM_LENGTH }
    ensures found { IfOk result (λ ops. SpellsShort format ops count stream.items) }
    ensures none { IsErrOf result Stream → HasNone format stream.items count }
    ensures long { IsErrOf result Long → HasTooLong format stream.items count }
{
    let reader = StreamReader::new(alloc, format, count).feed(&stream)?;
    reader.finish()
}
