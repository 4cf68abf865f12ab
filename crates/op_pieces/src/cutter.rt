//! Operations that come one after another, cut into pieces.
ghost use Rattle.std.specs.Prelude.{◌≡◌, ◌++◌, ◌∷◌, List, option_to_list, IfOk};
ghost use Rattle.op_model.specs.declared.op.Op.{Op as Operation};
ghost use Rattle.op_pieces.specs.Cutting.{cut as cut_of, cut_behind};

use crate::cutting::goes_on;
use crate::next::value_of;
use crate::piece::Piece;
use op_model::Op;
use std::alloc::{AllocError, Global};
use std::marker::Model;

/// A piece that is still open, while operations come one after another: what `cut` makes of a
/// list, without the list. Contracts see the piece and the last operation of it.
#[derive(Debug, Drop)]
pub struct Cutter {
    open: Piece,
    last: Op,
}

impl Model for Cutter {
    ghost use Rattle.op_pieces.specs.Cutting.{Open, IsOpen};

    ghost Value = { Open };

    ghost view = { λ c. record { piece = c.open; last = c.last } };

    ghost invariant = { λ c. IsOpen (record { piece = c.open; last = c.last }) };
}

impl Cutter {
    /// Begins with the first operation of a list. An error is out of memory (1).
    pub fn new(alloc: Global, first: Op) -> Result<Cutter, AllocError>
        ensures { IfOk result (λ cutter. (rest : List Operation)
            → cut_of (first ∷ rest) ≡ cut_behind cutter.piece cutter.last rest) }
    {
        let last = first.copy()?;
        Ok(Cutter {
            open: Piece::single(alloc, first),
            last,
        })
    }

    /// Takes the next operation, and gives the open piece where it ends before that. An error is
    /// out of memory (1), and says nothing of what is open then.
    pub fn take(&mut self, alloc: Global, op: Op) -> Result<Option<Piece>, AllocError>
        ensures { IfOk result (λ ended. (rest : List Operation)
            → cut_behind self.old.piece self.old.last (op ∷ rest)
            ≡ option_to_list ended ++ cut_behind self.new.piece self.new.last rest) }
    {
        if goes_on(&self.open, &self.last, &op) {
            self.open.grow(value_of(&op.body))?;
            self.last = op;
            return Ok(None);
        }
        let next = Cutter::new(alloc, op)?;
        let Cutter { open, .. } = std::mem::replace(self, next);
        Ok(Some(open))
    }

    /// The open piece, behind the last operation.
    pub fn finish(self) -> Piece
        ensures { result ≡ self.piece }
    {
        let Cutter { open, .. } = self;
        open
    }
}
