//! The operations of a stream that comes in parts.
ghost use Rattle.std.specs.Prelude.{◌≡◌, ◌+◌, ◌≤◌, ◌++◌, length, IfOk, IfErr};
ghost use Rattle.fixed_numbers.specs.declared.limits.TheConstants.{MAX_STREAM_LENGTH};
ghost use Rattle.stream_list.specs.Passing.{read_on};
ghost use Rattle.stream_list.specs.Streams.{SpellsShort};
ghost use Rattle.group_commit.specs.Loading.{IsStreamFault};
ghost use Rattle.group_commit.specs.Parts.{IsFeedFault};

use crate::open_fault::OpenError;
use run_list::RunList;
use stream_list::{ReadError, StreamReader};

/// The stream with more bytes at its end. 46 where no bytes behind these make it one of as many
/// operations as there have to be, 1 when out of memory.
pub(crate) fn feed(reader: StreamReader, bytes: &[u8]) -> Result<StreamReader, OpenError>
    requires { length reader.bytes + length bytes.now ≤ MAX_STREAM_LENGTH }
    ensures more { IfOk result (λ it. it ≡ read_on reader bytes.now) }
    ensures fault { IfErr result
        (λ e. IsFeedFault e reader.format (reader.bytes ++ bytes.now) reader.count) }
{
    match reader.feed(bytes) {
        Ok(reader) => Ok(reader),
        Err(error) => Err(OpenError::from(ReadError::from(error))),
    }
}

/// The operations that a stream spells, as many as there have to be; 46 where it spells none or
/// others, 47 where their records take more than 2^30 bytes one by one.
pub(crate) fn ops_of(reader: StreamReader) -> Result<RunList, OpenError>
    ensures found { IfOk result (λ ops. SpellsShort reader.format ops reader.count reader.bytes) }
    ensures fault { IfErr result
        (λ e. IsStreamFault e reader.format reader.bytes reader.count) }
{
    match reader.finish() {
        Ok(ops) => Ok(ops),
        Err(error) => Err(OpenError::from(error)),
    }
}
