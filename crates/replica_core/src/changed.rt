//! What changed in a document of a replica.
ghost use Rattle.std.specs.Prelude.{◌≡◌, ◌≤◌, ◌<◌, ◌+◌, map, take, IfOk, IfSome, IsSome};
ghost use Rattle.op_model.specs.declared.change_step.ChangeStep.TheVariants.{Put};
ghost use Rattle.doc_core.specs.Standing.{StandsFor};
ghost use Rattle.op_model.specs.Causality.{IsCausallyClosed};
ghost use Rattle.op_model.specs.Text.{rev};
ghost use Rattle.replica_core.specs.Came.{IsCame};
ghost use Rattle.replica_core.specs.Changed.{TellsChanges};
ghost use Rattle.replica_core.specs.Docs.{doc_number};
ghost use Rattle.replica_core.specs.Repeats.{AreRepeats};

use crate::docs::{count, find};
use crate::repeats::Repeats;
use crate::replica::Replica;
use doc_core::{Doc, Since};
use op_model::{ChangeStep, Span};
use run_list::RunSlice;
use std::alloc::{AllocError, Global};

impl Replica {
    /// What changed in a document, unsettled operations included, since it had `since` operations,
    /// as steps over the text that a reader has from then. `None` if it has fewer, or if that was
    /// before the replica was opened; but since it had none is always told. An error
    /// is out of memory (1). An answer lists at most 1,048,576 comment ids, one counted in each
    /// step that lists it: beyond it is 1. A search by halves for the document. Since it had none,
    /// what `spans` costs. Else a look at the head of each operation of the list from the end back
    /// to the first one of the document that came since, and for each one of the document what
    /// `RunSlice::get` and `Since::take_before` cost; and then what `Doc::changes` costs.
    pub fn changes(&self, doc: u32, since: usize) -> Result<Option<Vec<ChangeStep>>, AllocError>
        ensures { IfOk result
            (λ found. TellsChanges self.now.list self.now.opened doc since found) }
    {
        let alloc = self.log.list.allocator();
        if since == 0 {
            let spans = self.spans(doc)?;
            return Ok(Some(all_put(alloc, spans)?));
        }
        let empty = Doc::new(alloc, doc);
        let list = self.log.list.as_slice();
        let document = find(&self.log.docs, &empty);
        changed_since(alloc, document, &list, &self.repeats, since)
    }
}

/// What changed in a document of a list since it had `since` operations, one at least. `None` if it
/// has fewer, or if that was before anything was noted. An error is out of memory (1). Costs what
/// `Replica::changes` says.
fn changed_since(
    alloc: Global,
    document: &Doc,
    list: &RunSlice<'_>,
    repeats: &Repeats,
    since: usize,
) -> Result<Option<Vec<ChangeStep>>, AllocError>
    requires closed { IsCausallyClosed list.now }
    requires stands { StandsFor document.now list.now }
    requires repeats { AreRepeats repeats.now list.now }
    requires later { 0 < since }
    ensures { IfOk result (λ found.
        TellsChanges list.now repeats.now.from (doc_number document.now) since found) }
{
    let rev = count(document, list);
    if since > rev {
        return Ok(None);
    }
    match came(alloc, document.number(), list, repeats, rev - since)? {
        Some(came) => Ok(Some(document.changes(&came)?)),
        None => Ok(None),
    }
}

/// What came with the last `count` operations of a document, or `None` if one of these came before
/// anything was noted. An error is out of memory (1). Costs what `Replica::changes` says.
fn came(
    alloc: Global,
    doc: u32,
    list: &RunSlice<'_>,
    repeats: &Repeats,
    count: usize,
) -> Result<Option<Since>, AllocError>
    requires { AreRepeats repeats.now list.now }
    ensures came { IfOk result (λ found. IfSome found (λ came. IsCame came list.now doc count)) }
    ensures known { IfOk result (λ found.
        rev (take repeats.now.from list.now) doc + count ≤ rev list.now doc → IsSome found) }
{
    let mut came = Since::new(alloc, doc);
    let mut left = count;
    let mut next = list.len();
    'back: while left > 0 {
        if next <= repeats.from {
            return Ok(None);
        }
        next -= 1;
        if list.head(next).doc == doc {
            let op = list.get(next)?;
            came.take_before(&op, repeats.has(next))?;
            left -= 1;
        }
    }
    Ok(Some(came))
}

/// A step that puts each of these. An error is out of memory (1).
fn all_put(alloc: Global, spans: Vec<Span>) -> Result<Vec<ChangeStep>, AllocError>
    ensures { IfOk result (λ steps. steps.items ≡ map Put spans.items) }
{
    spans
        .into_iter()
        .map(|span| ChangeStep::Put(span))
        .collect(alloc)
}
