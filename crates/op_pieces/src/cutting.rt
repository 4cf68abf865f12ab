//! Operations, cut into pieces.
ghost use Rattle.std.specs.Prelude.{◌≡◌, true, IfOk, IsTrue};
ghost use Rattle.op_pieces.specs.Cutting.{cut as cut_of, goes_on as goes_on_of, value_of as value_of_body};
ghost use Rattle.op_pieces.specs.Pieces.{end_of, is_piece, longer};

use crate::next::{is_next, value_of};
use crate::piece::Piece;
use fixed_numbers::limits::MAX_EDIT;
use op_model::Op;
use std::alloc::{AllocError, Global};

/// The pieces of operations: each goes on as long as it can, so that as few as can be make up the
/// list. An error is out of memory (1). Linear in the operations.
pub fn cut(alloc: Global, ops: &[Op]) -> Result<Vec<Piece>, AllocError>
    ensures { IfOk result (λ pieces. pieces.items ≡ cut_of ops.now) }
{
    let mut pieces = Vec::new(alloc);
    let [first, rest @ ..] = ops else {
        return Ok(pieces);
    };
    let mut open = Piece::single(alloc, first.copy()?);
    let mut last = first;
    for op in rest {
        if goes_on(&open, last, op) {
            open.grow(value_of(&op.body))?;
        } else {
            pieces.push(open)?;
            open = Piece::single(alloc, op.copy()?);
        }
        last = op;
    }
    pieces.push(open)?;
    Ok(pieces)
}

/// Whether a piece, whose last operation is this one, can have one more.
pub(crate) fn goes_on(piece: &Piece, last: &Op, op: &Op) -> bool
    requires { end_of piece.now ≡ last.now }
    ensures test { result ≡ goes_on_of piece.now last.now op.now }
    ensures valid { IsTrue result
        → is_piece (longer piece.now (value_of_body op.now.body)) ≡ true }
{
    // From these the proof has that counter and deps are in range.
    let _counter = op.id.counter();
    let _entries = op.deps.entries();
    piece.others().len() + 1 < MAX_EDIT && is_next(last, op)
}
