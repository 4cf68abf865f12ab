//! The documents of a list that is opened.
ghost use Rattle.std.specs.Prelude.{◌≡◌, ◌<◌, ◌^◌, List, [], ◌∷◌, ◌++◌, IfOk, IfErr, OnOk};
ghost use Rattle.op_model.specs.Placing.{Fits};
ghost use Rattle.op_model.specs.Rising.{IsUp};
ghost use Rattle.op_model.specs.declared.op.Op.{Op};
ghost use Rattle.op_model.specs.Causality.{documents};
ghost use Rattle.op_model.specs.Spans.{with_number};
ghost use Rattle.op_model.specs.Text.{rev as rev_of};
ghost use Rattle.replica_core.specs.Docs.{draft_numbers, numbers as doc_numbers};
ghost use Rattle.replica_core.specs.Docs.{AllDrafts, AllStand, AreDrafts, IsNumberAt};

use crate::refusal::Refusal;
use doc_core::{Doc, Draft, SequenceError};
use op_model::{Op, place_among};
use std::alloc::{AllocError, Global};

/// Sees to it that a document has a draft among these, whose numbers rise, and returns its index.
/// An error is out of memory (1). A search by halves, and a step for each greater number if it is
/// new.
pub(crate) fn open(
    alloc: Global,
    numbers: &mut Vec<u32>,
    drafts: &mut Vec<Draft>,
    doc: u32,
) -> Result<usize, AllocError>
    requires rising { IsUp numbers.old.items }
    requires drafts { draft_numbers drafts.old.items ≡ numbers.old.items }
    ensures numbers { OnOk result (numbers.new.items ≡ with_number doc numbers.old.items) }
    ensures drafts { OnOk result ((ops : List Op) → numbers.old.items ≡ documents ops
        → AreDrafts drafts.old.items numbers.old.items ops
        → AreDrafts drafts.new.items numbers.new.items ops) }
    ensures place { IfOk result (λ at. IsNumberAt numbers.new.items at doc) }
{
    match place_among(numbers, doc) {
        Ok(at) => Ok(at),
        Err(at) => {
            let draft = Draft::new(alloc, doc)?;
            numbers.insert(at, doc).map_err(AllocError::from)?;
            drafts.insert(at, draft).map_err(AllocError::from)?;
            Ok(at)
        }
    }
}

/// Gives an operation that may come to its document's draft, which stands at this index, and
/// returns how many operations that has then. An error is out of memory (1). What the draft takes
/// for it.
pub(crate) fn apply(drafts: &mut Vec<Draft>, at: usize, op: &Op) -> Result<u64, Refusal>
    requires there { IsUp (draft_numbers drafts.old.items)
        × IsNumberAt (draft_numbers drafts.old.items) at op.now.doc }
    requires may_come { (ops : List Op) × AllDrafts drafts.old.items ops
        × Fits ops op.now.doc op.now }
    ensures numbers { OnOk result
        (draft_numbers drafts.new.items ≡ draft_numbers drafts.old.items) }
    ensures drafts { OnOk result ((ops : List Op) → AllDrafts drafts.old.items ops
        → Fits ops op.now.doc op.now → AllDrafts drafts.new.items (ops ++ op.now ∷ [])) }
    ensures rev { IfOk result (λ rev. (ops : List Op) → AllDrafts drafts.old.items ops
        → Fits ops op.now.doc op.now → rev_of (ops ++ op.now ∷ []) op.now.doc < 2 ^ 64
        → rev ≡ rev_of (ops ++ op.now ∷ []) op.now.doc) }
    ensures memory { IfErr result (λ e. e ≡ Refusal.Memory) }
{
    let draft = &mut drafts[at];
    match draft.apply(op) {
        Ok(()) => Ok(draft.rev()),
        Err(SequenceError::Memory) => Err(Refusal::Memory),
        Err(SequenceError::UnknownId) => unreachable!(),
    }
}

/// The documents of drafts. One after another, so that a weave is let go before the next document
/// takes memory. An error is out of memory (1).
pub(crate) fn finished(alloc: Global, drafts: Vec<Draft>) -> Result<Vec<Doc>, AllocError>
    ensures numbers { IfOk result (λ docs. doc_numbers docs.items ≡ draft_numbers drafts.items) }
    ensures stand { IfOk result (λ docs. (ops : List Op) → AllDrafts drafts.items ops
        → AllStand docs.items ops) }
{
    let mut docs = Vec::with_capacity(alloc, drafts.len())?;
    for draft in drafts {
        let doc = draft.finish(alloc)?;
        docs.push(doc)?;
    }
    Ok(docs)
}
