//! A replica takes what peers made.
ghost use Rattle.std.specs.Prelude.{◌≡◌, ◌≤◌, ◌+◌, List, length, None, Ok};
ghost use Rattle.std.specs.Prelude.{IfOk, IfErr, OnOk, OnErr, MatchOption};
ghost use Rattle.fixed_numbers.specs.declared.limits.TheConstants.{MAX_STEPS};
ghost use Rattle.op_model.specs.Machine.{merge_alone, merge_answer_unless, IsRefusal, refused};
ghost use Rattle.doc_core.specs.Standing.{StandsFor};
ghost use Rattle.op_model.specs.declared.op.Op.{Op as Operation};
ghost use Rattle.op_model.specs.Causality.{first_failed as first_failed_of, MayFollow};
ghost use Rattle.op_model.specs.Held.{with_merge};
ghost use Rattle.op_model.specs.Rising.{IsPlace};
ghost use Rattle.span_flatten.specs.Since.{removes_again as removes_again_of};
ghost use Rattle.replica_core.specs.Docs.{doc_number, numbers, AreDocs};
ghost use Rattle.replica_core.specs.Merging.{after_merge, answer_of, CanMerge};
ghost use Rattle.replica_core.specs.Refusal.{number_of};
ghost use Rattle.replica_core.specs.declared.merged.Merged.TheVariants.{Applied};

use crate::counting::advance;
use crate::docs;
use crate::following::{first_failed, is_known};
use crate::merged::Merged;
use crate::refusal::Refusal;
use crate::replica::Replica;
use crate::step::Step;
use doc_core::{Doc, Made, SequenceError};
use op_model::{Body, Op};
use std::alloc::Global;

impl Replica {
    /// Puts a peer's operation behind the list, or says that it is there already, or that it comes
    /// early. It is refused by the first cause, in this order: `OwnUnknown` (20), which is tested
    /// before `Early`, `Counter` (21), `Names` (22), `Document` (23), `StoreLimit` (24), `Steps`
    /// (10); `Memory` (1) stands only in place of `Applied`. A refused merge changes nothing. Costs
    /// what `decide_merge` and `put_merge` do.
    pub fn merge(&mut self, peer: u64, op: Op) -> Result<Merged, Refusal>
        ensures merged { IfOk result (λ m. self.new ≡ after_merge m self.old peer op) }
        ensures answer { IfOk result (λ m.
            merge_alone self.old op ≡ answer_of m) }
        ensures refused { IfErr result (λ e.
            IsRefusal (number_of e) (merge_alone self.old op)) }
        ensures err { OnErr result (self.new ≡ self.old) }
    {
        match self.decide_merge(&op)? {
            Merged::Applied => self.put_merge(peer, op)?,
            Merged::Known => return Ok(Merged::Known),
            Merged::Early => return Ok(Merged::Early),
        }
        Ok(Merged::Applied)
    }

    /// What a merge of an operation answers where there is memory for it: `OwnUnknown` (20), which
    /// is tested before `Early`, `Counter` (21), `Names` (22), `Document` (23), `StoreLimit` (24),
    /// `Steps` (10). Takes no memory. A few steps for clocks, a search by halves for the document,
    /// and two for each character that the operation names (one among its replica's operations,
    /// with one at each step, where that doesn't edit alone).
    pub fn decide_merge(&self, op: &Op) -> Result<Merged, Refusal>
        ensures answer { IfOk result (λ m.
            merge_alone self.now op.now ≡ answer_of m) }
        ensures refused { IfErr result (λ e.
            merge_alone self.now op.now ≡ refused (number_of e)) }
        ensures can { result ≡ Ok Applied → CanMerge self.now op.now }
    {
        if is_known(&self.clock, op) {
            return Ok(Merged::Known);
        }
        if op.id.replica() == self.id {
            return Err(Refusal::OwnUnknown);
        }
        if !self.clock.ready(op.id.replica(), &op.deps) {
            return Ok(Merged::Early);
        }
        match self.merge_refusal(op) {
            Some(refusal) => Err(refusal),
            None => Ok(Merged::Applied),
        }
    }

    /// Why an operation that is ready is refused, by the first cause. Takes no memory.
    fn merge_refusal(&self, op: &Op) -> Option<Refusal>
        ensures { MatchOption result
            ((first_failed_of self.now.list op.now ≡ None)
            × (length self.now.steps + 3 ≤ MAX_STEPS))
            (λ e. merge_answer_unless self.now (first_failed_of self.now.list op.now)
            ≡ refused (number_of e)) }
    {
        let log = &self.log;
        let has_place = docs::has_room(&log.docs, docs::place(&log.docs, op.doc));
        let ops = log.list.as_slice();
        if let Some(refusal) = first_failed(&ops, &self.clock, &log.index, op, has_place) {
            return Some(refusal);
        }
        if !self.steps.has_places() {
            return Some(Refusal::Steps);
        }
        None
    }

    /// Puts an operation behind the list that nothing refuses, as `decide_merge` tells. An error is
    /// out of memory (1), and changes nothing. A few steps for clocks, a search by halves for the
    /// document, and what that takes for it. For a remove `Doc::is_removed` too: if the character
    /// was removed before, that is noted.
    pub fn put_merge(&mut self, peer: u64, op: Op) -> Result<(), Refusal>
        requires { CanMerge self.old op }
        ensures merged { OnOk result (self.new ≡ with_merge self.old peer op) }
        ensures memory { IfErr result (λ e. e ≡ Refusal.Memory) }
        ensures err { OnErr result (self.new ≡ self.old) }
    {
        let alloc = self.log.list.allocator();
        let mut clock = self.clock.copy()?;
        advance(&mut clock, op.id.replica())?;
        let replica = op.id.replica();
        let doc = op.doc;
        let index = self.log.list.len();
        let place = docs::place(&self.log.docs, doc);
        let is_repeat = is_repeat(alloc, &self.log.docs, place, &op);
        let made = Made::one(alloc, op)?;
        self.repeats.note(index, is_repeat)?;
        match self.log.append(&made, replica, doc, place) {
            Ok(()) => {}
            Err(SequenceError::Memory) => {
                self.repeats.forget(index);
                return Err(Refusal::Memory);
            }
            Err(SequenceError::UnknownId) => unreachable!(),
        }
        self.clock = clock;
        self.steps.push(Step::Merge { peer, index });
        Ok(())
    }
}

/// Whether an operation that may come behind all others removes a character that was removed before
/// from its document, which is the one at this place, or has no operations yet. Takes no memory.
/// What `Doc::is_removed` costs, for a remove.
fn is_repeat(alloc: Global, docs: &[Doc], place: Result<usize, usize>, op: &Op) -> bool
    requires { IsPlace (numbers docs.now) op.now.doc place }
    ensures { (ops : List Operation) → AreDocs docs.now ops → MayFollow ops op.now
        → result ≡ removes_again_of ops op.now.doc op.now.body }
{
    let empty = Doc::new(alloc, op.doc);
    removes_again(docs::at(docs, place, &empty), op)
}

/// Whether an operation that may come behind all others of its document removes a character that
/// was removed before. Takes no memory. What `Doc::is_removed` costs, for a remove.
fn removes_again(doc: &Doc, op: &Op) -> bool
    ensures { (ops : List Operation) → StandsFor doc.now ops → doc_number doc.now ≡ op.now.doc
        → MayFollow ops op.now → result ≡ removes_again_of ops op.now.doc op.now.body }
{
    match &op.body {
        Body::Remove { target } => doc.is_removed(*target),
        _ => false,
    }
}
