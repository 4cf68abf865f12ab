//! The operations of a piece, each by itself.
ghost use Rattle.std.specs.Prelude.{◌≡◌, ◌∷◌, ℕ, List, true, IfOk};
ghost use Rattle.op_pieces.specs.Pieces.{fits_behind, next_typed as next_of, ops_of};

use crate::piece::Piece;
use op_ids::{ClockError, OpId};
use op_model::{Body, Op};
use std::alloc::{AllocError, Global};

impl Piece {
    /// The operations that it stands for, in their order: 1 to 256. Each is made from the one
    /// before. An error is out of memory (1). Linear in the operations and their deps.
    pub fn ops(&self, alloc: Global) -> Result<Vec<Op>, AllocError>
        ensures { IfOk result (λ ops. ops.items ≡ ops_of self.now) }
    {
        let others = self.others();
        let mut ops = Vec::with_capacity(alloc, others.len() + 1)?;
        let mut last = self.first().copy()?;
        for value in others {
            let next = next_typed(&last, *value)?;
            ops.push(last)?;
            last = next;
        }
        ops.push(last)?;
        Ok(ops)
    }
}

/// The insert of a character right behind an operation, where it fits, as the first of some. An
/// error is out of memory (1).
fn next_typed(op: &Op, value: char) -> Result<Op, AllocError>
    requires { (behind : List ℕ) × (fits_behind op.now (value ∷ behind) ≡ true) }
    ensures { IfOk result (λ next. next ≡ next_of op.now value) }
{
    let replica = op.id.replica();
    let mut deps = op.deps.copy()?;
    match deps.advance(replica) {
        Ok(()) => {}
        Err(ClockError::Memory) => return Err(AllocError),
        Err(ClockError::Limit) => unreachable!(),
    }
    Ok(Op {
        id: OpId::new(op.id.counter() + 1, replica),
        doc: op.doc,
        token: op.token,
        deps,
        body: Body::Insert {
            origin: Some(op.id),
            value,
        },
    })
}
