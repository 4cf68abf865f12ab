//! The operations of an edit.
ghost use Rattle.std.specs.Prelude.{◌≡◌, IfOk, IfErr, None};
ghost use Rattle.doc_core.specs.Standing.{StandsFor};
ghost use Rattle.op_model.specs.Made.{edit_refusal, made as made_of};
ghost use Rattle.replica_core.specs.Deciding.{AreCounted};
ghost use Rattle.replica_core.specs.Docs.{doc_number};

use crate::knowledge::Knowledge;
use crate::refusal::Refusal;
use doc_core::{Doc, Made, MakeError};
use op_ids::laws::replica_is_not_nil;
use op_model::{Author, Edit};
use run_list::RunSlice;
use std::alloc::Global;

/// The operations of an edit of a document that nothing refuses. The list is there for the proof.
/// An error is out of memory (1). Costs what `Doc::make` does.
pub(crate) fn made(
    alloc: Global,
    ops: &RunSlice<'_>,
    known: &Knowledge<'_>,
    doc: &Doc,
    edit: &Edit,
) -> Result<Made, Refusal>
    requires counted { AreCounted ops.now known.now.clock.now known.now.index.now }
    requires due { edit_refusal ops.now known.now.replica edit.now ≡ None }
    requires stands { StandsFor doc.now ops.now }
    requires number { doc_number doc.now ≡ edit.now.doc }
    ensures made { IfOk result (λ made. made ≡ made_of ops.now known.now.replica edit.now) }
    ensures memory { IfErr result (λ e. e ≡ Refusal.Memory) }
{
    let _ = ops;
    let next = known.index.greatest + 1;
    // From these the proof has that the clock's counts are in range, and the replica isn't nil.
    let _entries = known.clock.entries();
    replica_is_not_nil(known.replica);
    let author = Author {
        replica: known.replica,
        token: edit.token,
        counter: next,
        clock: known.clock,
    };
    match doc.make(alloc, &author, &edit.change) {
        Ok(made) => Ok(made),
        Err(MakeError::Memory) => Err(Refusal::Memory),
        Err(MakeError::Range) => unreachable!(),
        Err(MakeError::Limit) => unreachable!(),
    }
}
