//! How many operations a piece stands for, and how many bytes their records take.
ghost use Rattle.std.specs.Prelude.{◌≡◌, ◌+◌, ◌≤◌, ℕ, length};
ghost use Rattle.fixed_numbers.specs.declared.limits.TheConstants.{MAX_EDIT, MAX_REPLICAS};
ghost use Rattle.op_ids.specs.Clock.{advanced};
ghost use Rattle.op_model.specs.Records.{record_length, stream_length};
ghost use Rattle.op_pieces.specs.Pieces.{next_typed, ops_of};

use crate::piece::Piece;
use op_model::{Op, head_length, insert_length, token_length};

impl Piece {
    /// How many operations it stands for: 1 to 256. Constant.
    pub fn len(&self) -> usize
        ensures value { result ≡ length (ops_of self.now) }
        ensures within { result ≤ MAX_EDIT }
    {
        self.others().len() + 1
    }

    /// How many bytes the records of its operations take, each operation by itself. At most 16
    /// steps; takes no memory.
    pub fn records_length(&self) -> u64
        ensures value { result ≡ stream_length (ops_of self.now) }
        ensures within { result ≤ 125696 }
    {
        let others = self.others().len() as u64;
        self.first().record_length() + others * next_length(self.first())
    }
}

/// How many bytes the record of a character takes that is typed right behind this operation.
fn next_length(op: &Op) -> u64
    ensures value { (value : ℕ) → result ≡ record_length (next_typed op.now value) }
    ensures within { result ≤ 487 }
{
    head_length(next_deps(op)) + token_length(op.token.is_some()) + insert_length(true)
}

/// How many replicas its deps count: those of the operation, and its own.
#[tactic(auto, using(crate::proofs::LengthLemmas::advanced_length))]
fn next_deps(op: &Op) -> usize
    ensures value { result ≡ length (advanced op.now.deps op.now.id.replica) }
    ensures within { result ≤ MAX_REPLICAS + 1 }
{
    let len = op.deps.len();
    if op.deps.get(op.id.replica()) == 0 {
        return len + 1;
    }
    len
}
