//! Whole records of pieces.
ghost use Rattle.std.specs.Prelude.{◌≡◌, ◌≢◌, ◌⊎◌, ◌↔◌, ℕ, Ok, Err, Some, None, IfSome, IsErrOf, IfOk, slice_index};
ghost use Rattle.op_pieces.specs.Pieces.{Run};
ghost use Rattle.change_codec.specs.declared.codec_error.CodecError.TheVariants.{Memory};
ghost use Rattle.change_codec.specs.Record.{Answers, IsPartial};
ghost use Rattle.piece_codec.specs.Formats.{IsPieceOf, run_named as run_named_in};
ghost use Rattle.piece_codec.specs.Record.{taken_as, taken_piece, first_fault, BeginsWithPiece, BeginsWithOneOf};

use crate::kind::run_named;
use crate::run::take_run;
use change_codec::{CodecError, Format, take_op, whole_body};
use op_pieces::Piece;
use std::alloc::Global;

/// Takes the piece of a format whose record the bytes begin with, and the number of bytes that it
/// takes: at least 37. `None` where fewer than four bytes are there, or fewer than the record has.
///
/// A length that isn't from 33 to 1,491, or to 1,507 in the third format, is `Length` (30). The
/// record of an operation is taken as `take_op` takes it, in each format. Kind 5 is that of a run,
/// and 21 that of one with a token: in the first format both are `Kind` (31), in the second kind 21
/// is. In a whole record the first field that breaks its rule decides, in their order: `Length`
/// where it reaches past the end of the body, and where bytes are left behind the last one;
/// `Number` (32) for a counter that isn't from 1 to 2^48 - 1, a nil replica or token, more than 16
/// deps, a count that isn't from 1 to 2^24, or a number of characters that isn't from 2 to 256 or
/// with which the last counter would pass 2^48 - 1, the last own count 2^24, or later deps would
/// have 17 entries; `Order` (35) where the replicas of the deps don't rise; `Kind` for no kind of
/// origin; `Scalar` (33) for no Unicode scalar value. `Memory` (1) may only stand in place of a
/// piece. Nothing is consumed by a refusal.
///
/// All fields are tested before any memory is taken, and copied in a second pass: the deps of the
/// first operation, and the characters behind it.
pub fn take_piece(
    alloc: Global,
    format: Format,
    bytes: &[u8],
) -> Result<Option<(Piece, usize)>, CodecError>
    // A piece is found exactly where the first bytes spell it, and the format has it.
    ensures found { IfOk result (λ found. IfSome found (λ f. IsPieceOf format f.0
        × BeginsWithPiece bytes.now f.0 f.1)) }
    ensures only { (p : Run) (n : ℕ) → IsPieceOf format p → BeginsWithPiece bytes.now p n
        → (result ≡ Ok (Some (p, n))) ⊎ (result ≡ Err Memory) }

    // Nothing is found exactly where the record isn't all there.
    ensures partial { (result ≡ Ok None) ↔ IsPartial format bytes.now }

    // A fault is the first one.
    ensures fault { (e : CodecError) → e ≢ Memory
        → (IsErrOf result e ↔ (first_fault format bytes.now ≡ Some e)) }
    ensures memory { IsErrOf result Memory → BeginsWithOneOf format bytes.now }
{
    take_any(alloc, format, bytes)
}

/// Takes what stands at the front, by the kind of its record.
#[tactic(auto, unfolding(crate::specs::Record::taken_piece))]
fn take_any(
    alloc: Global,
    format: Format,
    bytes: &[u8],
) -> Result<Option<(Piece, usize)>, CodecError>
    ensures { Answers result (taken_piece format bytes.now) }
{
    match kind_of_run(format, bytes) {
        Some(has_token) => take_run_record(alloc, has_token, format, bytes),
        None => take_single(alloc, format, bytes),
    }
}

/// Whether the byte behind the length says that a run stands there: then whether it has a token.
fn kind_of_run(format: Format, bytes: &[u8]) -> Option<bool>
    ensures { result ≡ run_named_in format (slice_index bytes.now 4) }
{
    let kind = if bytes.len() > 4 { bytes[4] } else { 0 };
    run_named(format, kind)
}

/// Takes an operation as a piece.
fn take_single(
    alloc: Global,
    format: Format,
    bytes: &[u8],
) -> Result<Option<(Piece, usize)>, CodecError>
    ensures { Answers result (taken_as None format bytes.now) }
{
    match take_op(alloc, format, bytes) {
        Ok(Some((op, len))) => Ok(Some((Piece::single(alloc, op), len))),
        Ok(None) => Ok(None),
        Err(fault) => Err(fault),
    }
}

/// Takes a run, where its kind is there.
fn take_run_record(
    alloc: Global,
    has_token: bool,
    format: Format,
    bytes: &[u8],
) -> Result<Option<(Piece, usize)>, CodecError>
    ensures { Answers result (taken_as (Some has_token) format bytes.now) }
{
    match whole_body(format, bytes) {
        Ok(Some((body, len))) => {
            let run = take_run(alloc, has_token, &body[1..])?;
            Ok(Some((run, len)))
        }
        Ok(None) => Ok(None),
        Err(fault) => Err(fault),
    }
}
