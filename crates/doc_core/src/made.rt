//! The operations of one edit.
ghost use Rattle.std.specs.Prelude.{◌≡◌, ◌∷◌, [], IfOk};

use op_ids::OpId;
use op_model::Op;
use std::alloc::{AllocError, Global};
use std::marker::Model;

/// The operations of one edit, in order, and what they are, so that a document which takes them
/// doesn't look for it. Contracts see the list.
#[derive(Debug, Drop)]
pub struct Made {
    pub(crate) ops: Vec<Op>,
    pub(crate) part: Part,
}

/// What the operations of an edit are.
#[derive(Debug, Drop)]
pub enum Part {
    /// Inserts, the first behind an origin or at the beginning, each later one behind the one
    /// before.
    Run {
        origin: Option<OpId>,
        run: Vec<(OpId, char)>,
    },
    /// Removes of these characters.
    Removes {
        targets: Vec<OpId>,
    },
    /// One operation, whatever it does.
    One,
}

impl Model for Made {
    ghost use Rattle.std.specs.Prelude.{List};
    ghost use Rattle.op_model.specs.declared.op.Op.{Op};

    ghost Value = { List Op };

    ghost use Rattle.doc_core.specs.Making.{IsPart};

    ghost view = { λ m. m.ops.items };

    ghost invariant = { λ m. IsPart m.part m.ops.items };
}

impl Made {
    /// An edit of one operation. An error is out of memory (1).
    pub fn one(alloc: Global, op: Op) -> Result<Made, AllocError>
        ensures { IfOk result (λ made. made ≡ op ∷ []) }
    {
        let mut ops = Vec::new(alloc);
        ops.push(op)?;
        Ok(Made {
            ops,
            part: Part::One,
        })
    }

    /// The operations, in order. Constant.
    pub fn as_slice(&self) -> &[Op]
        ensures { result.now ≡ self.now }
    {
        &self.ops
    }
    /// The operations, in order, without what they are. Constant.
    pub fn into_ops(self) -> Vec<Op>
        ensures { result.items ≡ self }
    {
        self.ops
    }
}
