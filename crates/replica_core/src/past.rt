//! A document as it was.
ghost use Rattle.std.specs.Prelude.{◌≡◌, ◌<◌, ◌+◌, ℕ, List, length, take, get_or, nat_le};
ghost use Rattle.std.specs.Prelude.{is_some, option_map, IfOk, IfSome, OnOk};
ghost use Rattle.doc_core.specs.Drafting.{IsDraftOf};
ghost use Rattle.op_model.specs.declared.op.Op.{Op};
ghost use Rattle.op_model.specs.Causality.{IsCausallyClosed};
ghost use Rattle.op_model.specs.Spans.{spans as spans_of};
ghost use Rattle.op_model.specs.Text.{rev as rev_of, text as text_of};
ghost use Rattle.replica_core.specs.Docs.{draft_number};
ghost use Rattle.replica_core.specs.Past.{IsPast, spans_past, text_past, up_to};
ghost use Rattle.replica_core.specs.Drafted.{IsDrafted};

use crate::replica::Replica;
use doc_core::{Doc, Draft, SequenceError};
use op_model::{Span, Text};
use run_list::RunSlice;
use std::alloc::{AllocError, Global};

/// Other documents change nothing: whichever beginning of a list has so many operations of a
/// document, it shows the same text of it and the same spans.
pub fn the_past_goes_by_the_number_of_operations()
    ensures text { (list : List Op) (doc count front : ℕ) → rev_of (take front list) doc ≡ count
        → text_of (take front list) doc ≡ text_of (up_to list doc count) doc }
    ensures spans { (list : List Op) (doc count front : ℕ) → rev_of (take front list) doc ≡ count
        → spans_of (take front list) doc ≡ spans_of (up_to list doc count) doc }
{}

impl Replica {
    /// The text of a document as it was when it had `rev` operations, the first ones in this
    /// replica's list. `None` if it has fewer. An error is out of memory (1). Costs what `spans_at`
    /// does.
    pub fn text_at(&self, doc: u32, rev: usize) -> Result<Option<Text>, AllocError>
        ensures { IfOk result (λ found. found ≡ text_past self.now.list doc rev) }
    {
        match self.past(doc, rev)? {
            Some(past) => Ok(Some(past.text()?)),
            None => Ok(None),
        }
    }

    /// The text of a document as it was when it had `rev` operations, the first ones in this
    /// replica's list, cut where the marks change. `None` if it has fewer. An error is out of
    /// memory (1), also beyond 1,048,576 listed comment ids, as for `spans`.
    ///
    /// A look at the head of each operation up to the last of these, and for each of these what
    /// `RunSlice::get` and `Draft::apply` cost; then what `Doc::spans` costs. It takes as much
    /// memory as the opening of so much of the document does.
    pub fn spans_at(&self, doc: u32, rev: usize) -> Result<Option<Vec<Span>>, AllocError>
        ensures { IfOk result
            (λ found. option_map (λ v. v.items) found ≡ spans_past self.now.list doc rev) }
    {
        match self.past(doc, rev)? {
            Some(past) => Ok(Some(past.spans()?)),
            None => Ok(None),
        }
    }

    /// A document as it was when it had so many operations, or `None` if it has fewer.
    fn past(&self, doc: u32, rev: usize) -> Result<Option<Doc>, AllocError>
        ensures was { IfOk result (λ found. IfSome found
            (λ it. IsPast it self.now.list doc rev)) }
        ensures there { IfOk result
            (λ found. is_some found ≡ nat_le rev (rev_of self.now.list doc)) }
    {
        let alloc = self.log.list.allocator();
        match drafted(alloc, &self.log.list.as_slice(), doc, rev)? {
            Some(draft) => Ok(Some(draft.finish(alloc)?)),
            None => Ok(None),
        }
    }
}

/// The draft of a document with its first `count` operations in a list, or `None` if it has fewer.
/// An error is out of memory (1).
fn drafted(
    alloc: Global,
    list: &RunSlice<'_>,
    doc: u32,
    count: usize,
) -> Result<Option<Draft>, AllocError>
    requires closed { IsCausallyClosed list.now }
    ensures drafted { IfOk result (λ found. IfSome found
        (λ draft. (next : ℕ) × IsDrafted draft list.now doc count 0 next)) }
    ensures there { IfOk result (λ found. is_some found ≡ nat_le count (rev_of list.now doc)) }
{
    let mut draft = Draft::new(alloc, doc)?;
    let mut left = count;
    let mut next = 0;
    while left > 0 {
        if next == list.len() {
            return Ok(None);
        }
        if list.head(next).doc == doc {
            take(&mut draft, list, next)?;
            left -= 1;
        }
        next += 1;
    }
    Ok(Some(draft))
}

/// Gives the draft of a list's first operations the next one, which is of its document. An error is
/// out of memory (1).
fn take(draft: &mut Draft, list: &RunSlice<'_>, at: usize) -> Result<(), AllocError>
    requires closed { IsCausallyClosed list.now }
    requires there { at < length list.now }
    requires draft { IsDraftOf draft.old (take at list.now) }
    requires own { (op : Op) → op ≡ get_or list.now at op → op.doc ≡ draft_number draft.old }
    ensures taken { OnOk result (IsDraftOf draft.new (take (at + 1) list.now)) }
    ensures number { draft_number draft.new ≡ draft_number draft.old }
{
    let op = list.get(at)?;
    match draft.apply(&op) {
        Ok(()) => Ok(()),
        Err(SequenceError::Memory) => Err(AllocError),
        Err(SequenceError::UnknownId) => unreachable!(),
    }
}
