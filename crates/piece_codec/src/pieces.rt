//! The records of pieces, one after another.
ghost use Rattle.std.specs.Prelude.{◌≡◌, ◌++◌, length, min, take, OnOk, OnErr};
ghost use Rattle.piece_codec.specs.Fits.{AreWhole};
ghost use Rattle.piece_codec.specs.Stream.{spelled_pieces};

use crate::fits::every_piece_has_a_spelling;
use crate::spelling::{piece_length, put_piece};
use op_pieces::Piece;
use std::alloc::AllocError;

/// Appends the records of pieces, one after another: all of them, or none. An error is out of
/// memory (1), and leaves the bytes as they were. Each byte is written once.
pub fn put_pieces(pieces: &[Piece], out: &mut Vec<u8>) -> Result<(), AllocError>
    ensures ok { OnOk result (out.new.items ≡ out.old.items ++ spelled_pieces pieces.now) }
    ensures fits { OnOk result (AreWhole pieces.now) }
    ensures err { OnErr result (out.new.items ≡ out.old.items) }
{
    let len = out.len();
    match put_each(pieces, out) {
        Ok(()) => Ok(()),
        Err(refused) => {
            out.truncate(len);
            Err(refused)
        }
    }
}

/// Puts records behind what is there.
fn put_each(pieces: &[Piece], out: &mut Vec<u8>) -> Result<(), AllocError>
    ensures ok { OnOk result (out.new.items ≡ out.old.items ++ spelled_pieces pieces.now) }
    ensures fits { OnOk result (AreWhole pieces.now) }
    ensures front { take (length out.old.items) out.new.items ≡ out.old.items }
{
    for piece in pieces {
        every_piece_has_a_spelling(piece);
        put_piece(piece, out)?;
    }
    Ok(())
}

/// How many bytes the records of pieces take, or 2^64 - 1 where they are more. Takes no memory.
pub fn pieces_length(pieces: &[Piece]) -> u64
    ensures { result ≡ min (length (spelled_pieces pieces.now)) 18446744073709551615 }
{
    let mut total: u64 = 0;
    for piece in pieces {
        total = total.saturating_add(piece_length(piece) as u64);
    }
    total
}
