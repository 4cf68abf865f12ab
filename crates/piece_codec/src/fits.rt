//! Every piece has a spelling. The characters are read for the proof alone, which knows from that
//! what their type keeps.
ghost use Rattle.piece_codec.specs.Fits.{AreScalars, IsWhole};

use change_codec::every_op_has_a_spelling;
use op_pieces::Piece;

/// Every piece has a spelling. It reads the fields and changes nothing.
pub fn every_piece_has_a_spelling(piece: &Piece)
    ensures { IsWhole piece.now }
{
    every_op_has_a_spelling(piece.first());
    scalars_fit(piece.others());
}

fn scalars_fit(values: &[char])
    ensures { AreScalars values.now }
{
    let mut i = values.len();
    while i > 0 {
        i -= 1;
        let _value = values[i] as u32;
    }
}
