//! The writing of a list anew, with what was typed in runs.
ghost use Rattle.std.specs.Prelude.{◌≡◌, ◌≤◌, length, IfOk};
ghost use Rattle.change_codec.specs.declared.format.Format.TheVariants.{Third};
ghost use Rattle.op_model.specs.Records.{stream_length};
ghost use Rattle.op_pieces.specs.Cutting.{cut};
ghost use Rattle.piece_codec.specs.Stream.{spelled_pieces, SpellsList};

use op_pieces::Cutter;
use piece_codec::put_piece;
use run_list::RunSlice;
use std::alloc::{AllocError, Global};

/// The records of the pieces that a list is cut into, in the third format: as few as can be. They
/// are no longer than those of its operations, one by one, and some fifteen times shorter for typed
/// text. An error is out of memory (1). One pass over the list, of which a piece is in memory at a
/// time; for each operation what `RunSlice::get` costs.
pub fn packed(alloc: Global, list: &RunSlice<'_>) -> Result<Vec<u8>, AllocError>
    ensures bytes { IfOk result (λ bytes. bytes.items ≡ spelled_pieces (cut list.now)) }
    ensures spells { IfOk result (λ bytes. SpellsList Third list.now bytes.items) }
    ensures short { IfOk result (λ bytes. length bytes.items ≤ stream_length list.now) }
{
    // For the proof: its contract says that the operations keep their rules.
    list.kept();
    let mut out = Vec::new(alloc);
    if list.len() == 0 {
        return Ok(out);
    }
    let mut cutter = Cutter::new(alloc, list.get(0)?)?;
    for i in 1..list.len() {
        if let Some(piece) = cutter.take(alloc, list.get(i)?)? {
            put_piece(&piece, &mut out)?;
        }
    }
    put_piece(&cutter.finish(), &mut out)?;
    Ok(out)
}
