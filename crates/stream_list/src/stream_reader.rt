//! A stream that comes in parts.
ghost use Rattle.std.specs.Prelude.{◌≡◌, ◌+◌, ◌≤◌, ◌++◌, length, IfOk, IsErrOf};
ghost use Rattle.fixed_numbers.specs.declared.limits.TheConstants.{MAX_STREAM_LENGTH};
ghost use Rattle.change_codec.specs.declared.stream_error.StreamError.TheVariants as error;
ghost use Rattle.stream_list.specs.Passing.{unread, read_on};
ghost use Rattle.stream_list.specs.Streams.{HasNone, HasTooLong, NeverHas, SpellsShort};
ghost use Rattle.stream_list.specs.declared.read_error.ReadError.TheVariants.{Stream, Long};

use crate::passing::{Listed, pass_pieces};
use crate::read_error::ReadError;
use change_codec::{Format, StreamError};
use fixed_numbers::limits::MAX_STREAM_LENGTH;
use ghost_lists::Written;
use run_list::{RunList, RunWriter};
use std::alloc::Global;
use std::marker::Model;

/// A stream of a format that comes in parts, and of which a number of operations is expected.
/// Contracts see these two, and the bytes so far. Memory holds the list of the operations so far,
/// in which a typed character takes four bytes, each other operation its record without the token
/// and twelve, and a new token twenty, and fewer than 1,511 bytes of an unfinished record.
#[derive(Drop)]
pub struct StreamReader {
    format: Format,
    count: u64,
    listed: Listed,
    /// The bytes behind the last whole piece.
    rest: Vec<u8>,
    bytes: Written<u8>,
}

impl Model for StreamReader {
    ghost use Rattle.stream_list.specs.Passing.{Reading, HasPassed};

    ghost Value = { Reading };

    ghost view = { λ r. record { format = r.format; count = r.count; bytes = r.bytes.items } };

    ghost invariant = { λ r. HasPassed (record {
      format = r.format;
      count = r.count;
      bytes = r.bytes.items;
    }) r.rest.items r.listed };
}

impl StreamReader {
    /// A stream of which nothing came so far. Takes no memory.
    pub fn new(alloc: Global, format: Format, count: u64) -> StreamReader
        ensures { result ≡ unread format count }
    {
        StreamReader {
            format,
            count,
            listed: Listed {
                list: RunWriter::new(alloc),
                left: count,
                records: 0,
            },
            rest: Vec::new(alloc),
            bytes: Written::new(),
        }
    }

    /// The stream with more bytes at its end. `Stream` (46) at the first record that is none or has
    /// too many operations: no bytes behind these make it a stream of so many. `Memory` (1) may
    /// stand in place of each answer, and says nothing of the bytes. A refusal lets go of the list.
    ///
    /// One pass over the bytes, which are copied behind those of the unfinished record first.
    pub fn feed(self, bytes: &[u8]) -> Result<StreamReader, StreamError>
        requires short { length self.bytes + length bytes.now ≤ MAX_STREAM_LENGTH }
        ensures more { IfOk result (λ reader. reader ≡ read_on self bytes.now) }
        ensures none { IsErrOf result error.Stream
            → NeverHas self.format (self.bytes ++ bytes.now) self.count }
    {
        let StreamReader {
            format,
            count,
            listed,
            rest: mut waiting,
            bytes: before,
        } = self;
        let alloc = *waiting.allocator();
        waiting.extend_from_slice(bytes)?;
        let stream = before.and(bytes);
        let (listed, left) = pass_pieces(alloc, format, &stream, &waiting, count, listed)?;
        let mut rest = Vec::new(alloc);
        rest.extend_from_slice(left)?;
        Ok(StreamReader {
            format,
            count,
            listed,
            rest,
            bytes: stream,
        })
    }

    /// The operations that the bytes spell, if they are as many as expected. Refuses as
    /// [`read_stream`](crate::read_stream) does, but not with 1. Constant.
    pub fn finish(self) -> Result<RunList, ReadError>
        ensures found { IfOk result (λ ops. SpellsShort self.format ops self.count self.bytes) }
        ensures none { IsErrOf result Stream → HasNone self.format self.bytes self.count }
        ensures long { IsErrOf result Long → HasTooLong self.format self.bytes self.count }
    {
        let StreamReader { listed, rest, .. } = self;
        if !rest.is_empty() || listed.left > 0 {
            return Err(ReadError::Stream);
        }
        if listed.records > MAX_STREAM_LENGTH {
            return Err(ReadError::Long);
        }
        Ok(listed.list.into_list())
    }
}
