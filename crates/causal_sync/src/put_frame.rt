//! Frames as bytes: four bytes for the length of the content, and the content.
ghost use Rattle.std.specs.Prelude.{◌≡◌, ◌≤◌, ◌<◌, ◌^◌, IfOk, length};
ghost use Rattle.std.specs.Int.{w32};
ghost use Rattle.fixed_numbers.specs.declared.limits.TheConstants.{MAX_TOLD};
ghost use Rattle.causal_sync.specs.declared.heard.Heard.TheVariants as frame;
ghost use Rattle.causal_sync.specs.Frames.{frame_bytes};
ghost use Rattle.change_codec.specs.Spelling.{number_bytes};
ghost use Rattle.piece_codec.specs.Stream.{spelled_pieces};

use change_codec::put_clock;
use op_ids::{Clock, ReplicaId};
use op_pieces::Piece;
use piece_codec::{every_piece_has_a_spelling, put_piece};
use std::alloc::{AllocError, Global};

/// The spelling of a HELLO. An error is out of memory (1).
pub(crate) fn spelled_hello(alloc: Global, own: ReplicaId) -> Result<Vec<u8>, AllocError>
    ensures { IfOk result (λ bytes. bytes.items ≡ frame_bytes (frame.Hello own)) }
{
    let mut bytes = begun(alloc, 19)?;
    bytes.extend_from_slice(&[1, 0, 3])?;
    bytes.extend_from_slice(&own.bytes())?;
    Ok(bytes)
}

/// The spelling of a HAVE. An error is out of memory (1).
pub(crate) fn spelled_have(alloc: Global, clock: &Clock) -> Result<Vec<u8>, AllocError>
    ensures { IfOk result (λ bytes. bytes.items ≡ frame_bytes (frame.Have clock.now)) }
{
    let mut bytes = begun(alloc, 2 + 24 * clock.len())?;
    bytes.extend_from_slice(&[2])?;
    put_clock(clock, &mut bytes)?;
    Ok(bytes)
}

/// The spelling of an OPS of these pieces. An error is out of memory (1).
pub(crate) fn spelled_ops(alloc: Global, pieces: &[Piece]) -> Result<Vec<u8>, AllocError>
    requires { length pieces.now ≤ MAX_TOLD }
    ensures { IfOk result (λ bytes. bytes.items ≡ frame_bytes (frame.Ops pieces.now)) }
{
    let records = spelled_records(alloc, pieces)?;
    let mut bytes = begun(alloc, 3 + records.len())?;
    bytes.extend_from_slice(&[3])?;
    bytes.extend_from_slice(&(pieces.len() as u16).to_be_bytes())?;
    bytes.extend_from_slice(&records)?;
    Ok(bytes)
}

/// The spelling of a BYE. An error is out of memory (1).
pub(crate) fn spelled_bye(alloc: Global) -> Result<Vec<u8>, AllocError>
    ensures { IfOk result (λ bytes. bytes.items ≡ frame_bytes frame.Bye) }
{
    let mut bytes = begun(alloc, 1)?;
    bytes.extend_from_slice(&[4])?;
    Ok(bytes)
}

/// The length of a frame, with room for its content.
#[tactic(auto, unfolding(change_codec::specs::Spelling::number_bytes))]
fn begun(alloc: Global, len: usize) -> Result<Vec<u8>, AllocError>
    requires { len < 2 ^ 32 }
    ensures { IfOk result (λ bytes. bytes.items ≡ number_bytes w32 len) }
{
    let mut bytes = Vec::with_capacity(alloc, 4 + len)?;
    bytes.extend_from_slice(&(len as u32).to_be_bytes())?;
    Ok(bytes)
}

/// The records of some pieces, one after another.
fn spelled_records(alloc: Global, pieces: &[Piece]) -> Result<Vec<u8>, AllocError>
    requires { length pieces.now ≤ MAX_TOLD }
    ensures value { IfOk result (λ records. records.items ≡ spelled_pieces pieces.now) }
    ensures within { IfOk result (λ records. length records.items ≤ 96704) }
{
    let mut records = Vec::new(alloc);
    for piece in pieces {
        // From this the proof has how long a record is at most.
        every_piece_has_a_spelling(piece);
        put_piece(piece, &mut records)?;
    }
    Ok(records)
}
