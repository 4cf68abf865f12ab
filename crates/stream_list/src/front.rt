//! The piece at the front of a stream.
ghost use Rattle.std.specs.Prelude.{◌≡◌, IfOk, IfSome, Ok, None};
ghost use Rattle.stream_list.specs.Fronts.{BeginsWithNone, PutsFront};

use change_codec::{CodecError, Format, skip_op};
use piece_codec::take_piece;
use run_list::RunWriter;
use std::alloc::{AllocError, Global};

/// What the piece at the front says, without its operations.
#[derive(Clone, Copy, Debug)]
pub struct Front {
    /// How many bytes its record takes.
    pub len: usize,
    /// How many operations it stands for.
    pub count: u64,
    /// How many bytes the records of these take, one by one.
    pub records: u64,
}

/// Puts the operations of the piece of a format into a list that the bytes begin with, and gives
/// what the piece says. `None` where they begin with none, which changes nothing; an error is out
/// of memory (1). One pass over a single operation, which takes no memory beside the list's where
/// it is typed behind the last one, and two over a run.
pub(crate) fn put_front(
    alloc: Global,
    format: Format,
    bytes: &[u8],
    list: &mut RunWriter,
) -> Result<Option<Front>, AllocError>
    ensures found { IfOk result (λ found. IfSome found
        (λ front. PutsFront format bytes.now front list.old list.new)) }
    ensures none { result ≡ Ok None → BeginsWithNone format bytes.now }
    ensures same { result ≡ Ok None → list.new ≡ list.old }
{
    match list.type_record(format, bytes)? {
        Some(len) => Ok(Some(Front {
            len,
            count: 1,
            records: len as u64,
        })),
        None => put_read(list, alloc, format, bytes),
    }
}

/// The same, for any piece. The bytes of a single operation are copied as they are unless it may go
/// on with a run.
fn put_read(
    list: &mut RunWriter,
    alloc: Global,
    format: Format,
    bytes: &[u8],
) -> Result<Option<Front>, AllocError>
    ensures found { IfOk result (λ found. IfSome found
        (λ front. PutsFront format bytes.now front list.old list.new)) }
    ensures none { result ≡ Ok None → BeginsWithNone format bytes.now }
    ensures same { result ≡ Ok None → list.new ≡ list.old }
{
    if let Some(len) = skip_op(format, bytes) {
        list.put_record(bytes.split_at(len).0)?;
        return Ok(Some(Front {
            len,
            count: 1,
            records: len as u64,
        }));
    }
    match take_piece(alloc, format, bytes) {
        Ok(Some((piece, len))) => {
            list.put_piece(&piece)?;
            Ok(Some(Front {
                len,
                count: piece.len() as u64,
                records: piece.records_length(),
            }))
        }
        Ok(None) => Ok(None),
        Err(CodecError::Memory) => Err(AllocError),
        Err(_) => Ok(None),
    }
}
