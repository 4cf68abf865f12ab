//! The operations of an action, and what takes them.
ghost use Rattle.std.specs.Prelude.{◌≡◌};
ghost use Rattle.replica_core.specs.Edited.{ops_of};

use doc_core::{Doc, Made};
use op_model::Op;

/// The operations of an action, before they are kept.
#[derive(Drop)]
pub enum Edited {
    /// Those of one change: the document itself takes them.
    One(Made),
    /// Those of several: a copy of the document has them, and takes its place.
    Several { ops: Vec<Op>, copy: Doc },
}

impl Edited {
    /// The operations, in order. Constant.
    pub(crate) fn as_slice(&self) -> &[Op]
        ensures { result.now ≡ ops_of self.now }
    {
        match self {
            Edited::One(made) => made.as_slice(),
            Edited::Several { ops, .. } => ops,
        }
    }
}
