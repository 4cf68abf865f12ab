//! What changed in a document.
ghost use Rattle.std.specs.Prelude.{◌≡◌, ◌≤◌, ◌++◌, List, IfOk};
ghost use Rattle.op_model.specs.declared.op.Op.{Op};
ghost use Rattle.op_model.specs.Changes.{changes as changes_of};
ghost use Rattle.fixed_numbers.specs.declared.limits.TheConstants.{MAX_LISTED};
ghost use Rattle.span_flatten.specs.Listing.{listed_steps};
ghost use Rattle.doc_core.specs.Standing.{StandsFor};
ghost use Rattle.span_flatten.specs.Since.{IsSince};

use crate::doc::Doc;
use op_model::ChangeStep;
use span_flatten::{Since, SpansError};

impl Doc {
    /// What changed since the operations came that are noted, as steps over the text that a reader
    /// has from then. They list at most 1,048,576 comment ids, one counted in each step that lists
    /// it: beyond that the error is `Listing` (1), and else `Memory` (1). No pass over the
    /// document: costs what `span_flatten::changes` does.
    pub fn changes(&self, since: &Since) -> Result<Vec<ChangeStep>, SpansError>
        ensures told { IfOk result (λ found. (before more : List Op)
            → StandsFor self.now (before ++ more) → IsSince since.now before more self.now.number
            → found.items ≡ changes_of before (before ++ more) self.now.number) }
        ensures few { IfOk result (λ found. listed_steps found.items ≤ MAX_LISTED) }
    {
        span_flatten::changes(&self.sequence, &self.anchors, since)
    }
}
