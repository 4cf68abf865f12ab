//! The records of a list of operations, one after another.
ghost use Rattle.std.specs.Prelude.{◌≡◌, ◌≢◌, ◌<◌, ◌++◌, min, length, take, OnOk, OnErr, IfOk, IsErrOf};
ghost use Rattle.op_model.specs.Records.{stream_length as length_of};
ghost use Rattle.change_codec.specs.declared.codec_error.CodecError.TheVariants.{Memory};
ghost use Rattle.change_codec.specs.declared.stream_error.StreamError.TheVariants.{Stream};
ghost use Rattle.change_codec.specs.Fits.{IsOperation};
ghost use Rattle.change_codec.specs.Formats.{AreOf, IsOf};
ghost use Rattle.change_codec.specs.Spelling.{spelled};
ghost use Rattle.change_codec.specs.Stream.{spelled_all, AreOperations, IsNoStream};

use crate::fits::every_op_has_a_spelling;
use crate::{CodecError, Format, StreamError, put_op, take_op};
use op_model::Op;
use std::alloc::{AllocError, Global};

/// Appends the records of operations, one after another. An error is out of memory (1), and leaves
/// the bytes as they were. Each byte is written once.
pub fn put_ops(ops: &[Op], out: &mut Vec<u8>) -> Result<(), AllocError>
    ensures ok { OnOk result (out.new.items ≡ out.old.items ++ spelled_all ops.now) }
    ensures fits { OnOk result (AreOperations ops.now) }
    ensures err { OnErr result (out.new.items ≡ out.old.items) }
{
    let len = out.len();
    match put_each(ops, out) {
        Ok(()) => Ok(()),
        Err(refused) => {
            out.truncate(len);
            Err(refused)
        }
    }
}

/// Puts records behind what is there.
fn put_each(ops: &[Op], out: &mut Vec<u8>) -> Result<(), AllocError>
    ensures ok { OnOk result (out.new.items ≡ out.old.items ++ spelled_all ops.now) }
    ensures fits { OnOk result (AreOperations ops.now) }
    ensures front { take (length out.old.items) out.new.items ≡ out.old.items }
{
    for op in ops {
        every_op_has_a_spelling(op);
        put_op(op, out)?;
    }
    Ok(())
}

/// The operations of a format whose records these bytes are. `Stream` (46) where the bytes aren't
/// the records of such operations, one after another; `Memory` (1) says nothing of the bytes. One
/// pass; what `take_op` takes for each.
pub fn take_ops(alloc: Global, format: Format, bytes: &[u8]) -> Result<Vec<Op>, StreamError>
    ensures spelled_so { IfOk result (λ ops. spelled_all ops.items ≡ bytes.now) }
    ensures fits { IfOk result (λ ops. AreOperations ops.items) }
    ensures of_format { IfOk result (λ ops. AreOf format ops.items) }
    ensures none { IsErrOf result Stream → IsNoStream format bytes.now }
{
    let mut ops = Vec::new(alloc);
    let mut rest = bytes;
    while !rest.is_empty() {
        match take_next(alloc, format, rest) {
            Ok((op, after)) => {
                ops.push(op).map_err(AllocError::from)?;
                rest = after;
            }
            Err(fault) => return Err(fault),
        }
    }
    Ok(ops)
}

/// Takes the operation at the front, and gives the bytes behind its record.
fn take_next(alloc: Global, format: Format, bytes: &[u8]) -> Result<(Op, &[u8]), StreamError>
    requires { 0 < length bytes.now }
    ensures spelled_so { IfOk result (λ x. bytes.now ≡ spelled x.0 ++ x.1.now) }
    ensures fits { IfOk result (λ x. IsOperation x.0) }
    ensures of_format { IfOk result (λ x. IsOf format x.0) }
    ensures fewer { IfOk result (λ x. length x.1.now < length bytes.now) }
    ensures none { IsErrOf result Stream → IsNoStream format bytes.now }
{
    match take_op(alloc, format, bytes) {
        Ok(Some((op, len))) => {
            let (_, rest) = bytes.split_at(len);
            Ok((op, rest))
        }
        Ok(None) => Err(StreamError::Stream),
        Err(fault) => Err(stream_error(fault)),
    }
}

/// What a record that can't be taken makes of the stream.
fn stream_error(fault: CodecError) -> StreamError
    ensures { result ≡ Stream → fault ≢ Memory }
{
    if fault == CodecError::Memory {
        StreamError::Memory
    } else {
        StreamError::Stream
    }
}

/// How many bytes the records of operations take, or 2^64 - 1 where they are more. Takes no memory.
pub fn stream_length(ops: &[Op]) -> u64
    ensures { result ≡ min (length_of ops.now) 18446744073709551615 }
{
    let mut total: u64 = 0;
    for op in ops {
        total = total.saturating_add(op.record_length());
    }
    total
}
