//! The pieces of a stream, one after another.
ghost use Rattle.std.specs.Prelude.{◌≤◌, length, IfOk, IsErrOf};
ghost use Rattle.fixed_numbers.specs.declared.limits.TheConstants.{MAX_STREAM_LENGTH};
ghost use Rattle.change_codec.specs.declared.stream_error.StreamError.TheVariants.{Stream};
ghost use Rattle.stream_list.specs.Fronts.{BeginsWithNone};
ghost use Rattle.stream_list.specs.Passing.{Passed};
ghost use Rattle.stream_list.specs.Streams.{NeverHas};

use crate::front::put_front;
use change_codec::{Format, StreamError};
use fixed_numbers::sizes::MAX_TOKEN_RECORD;
use ghost_lists::Written;
use run_list::RunWriter;
use std::alloc::Global;

/// The most bytes of a piece's record, with the four of its length.
const LONGEST: usize = 4 + MAX_TOKEN_RECORD;

/// What the pieces that were passed gave.
#[derive(Drop)]
pub(crate) struct Listed {
    /// Their operations.
    pub list: RunWriter,
    /// How many more there have to be.
    pub left: u64,
    /// How many bytes the records of those in the list take, one by one.
    pub records: u64,
}

/// Passes the whole pieces of a format that the rest of a stream begins with, so far as it is
/// there, and gives what is left of it. `Stream` (46) at the first piece that has too many
/// operations, and where what is left is too long for the beginning of a piece; `Memory` (1) says
/// nothing of the bytes. What `put_front` takes for each piece.
pub(crate) fn pass_pieces<'a>(
    alloc: Global,
    format: Format,
    stream: &Written<u8>,
    bytes: &'a [u8],
    count: u64,
    so_far: Listed,
) -> Result<(Listed, &'a [u8]), StreamError>
    requires short { length stream.now.items ≤ MAX_STREAM_LENGTH }
    requires before { Passed format stream.now.items bytes.now so_far.list count so_far.left
        so_far.records }
    ensures passed { IfOk result (λ it. Passed format stream.now.items it.1.now it.0.list count
        it.0.left it.0.records) }
    ensures unfinished { IfOk result (λ it. BeginsWithNone format it.1.now) }
    ensures none { IsErrOf result Stream → NeverHas format stream.now.items count }
{
    let Listed {
        mut list,
        mut left,
        mut records,
    } = so_far;
    let mut rest = bytes;
    while let Some(front) = put_front(alloc, format, rest, &mut list)? {
        if front.count > left {
            return Err(StreamError::Stream);
        }
        left -= front.count;
        records += front.records;
        rest = rest.split_at(front.len).1;
    }
    if rest.len() >= LONGEST {
        return Err(StreamError::Stream);
    }
    Ok((
        Listed {
            list,
            left,
            records,
        },
        rest,
    ))
}
