//! What is known of a list that is opened.
ghost use Rattle.std.specs.Prelude.{◌≡◌, ◌≢◌, ◌+◌, ◌<◌, ◌^◌, ◌↔◌, ◌&&◌, ℕ, List, ◌∷◌, [], ◌++◌, length, nat_lt, IfOk, IfErr, OnOk, IsTrue};
ghost use Rattle.doc_core.specs.Drafting.{IsDraftOf};
ghost use Rattle.op_ids.specs.Clock.{advanced, IsOverfull};
ghost use Rattle.op_model.specs.declared.op.Op.{Op};
ghost use Rattle.op_model.specs.Causality.{IsCausallyClosed, MayFollow};
ghost use Rattle.op_model.specs.Causality.{is_covered_insert as is_covered_insert_of, names_inserts as names_inserts_of};
ghost use Rattle.op_model.specs.Records.{record_length};
ghost use Rattle.replica_core.specs.Deciding.{AreCounted, AreKnown};
ghost use Rattle.replica_core.specs.Indexes.{IsIndexOf};
ghost use Rattle.replica_core.specs.Passing.{ArePassed, IsOpenFor};

use crate::counting::advance;
use crate::drafts::{apply, finished, open};
use crate::following::{fits, is_counted_up, names_inserts};
use crate::index::Index;
use crate::named::is_covered_insert;
use crate::refusal::Refusal;
use doc_core::{Doc, Draft};
use edit_tokens::{Gathered, Place, Tokens};
use fixed_numbers::limits::MAX_DOCUMENTS;
use op_ids::{Clock, OpId, ReplicaId};
use op_model::{Body, Op};
use run_list::RunSlice;
use std::alloc::Global;

/// What a replica knows of a list that it was opened with.
#[derive(Drop)]
pub struct Opened {
    pub clock: Clock,
    pub docs: Vec<Doc>,
    pub index: Index,
    pub tokens: Tokens,
}

/// What is known of the operations that were passed so far.
#[derive(Drop)]
pub struct Passed {
    pub clock: Clock,
    pub index: Index,
    /// The numbers of their documents, which rise.
    pub numbers: Vec<u32>,
    /// The drafts of these.
    pub drafts: Vec<Draft>,
    pub tokens: Gathered,
}

/// The clock, the documents and the index of a causally closed list, and the tokens of a replica's
/// edits in it. `BadOperation` (47) exactly where the list isn't; `Memory` (1) says nothing of
/// that. One pass over the list, in which each operation is read once: for each a search by halves
/// for its document, what `may_take` costs, and what its draft takes for it. Then the tokens of the
/// own ones are sorted, once the drafts are let go.
pub(crate) fn counted(
    alloc: Global,
    replica: ReplicaId,
    list: &RunSlice<'_>,
) -> Result<Opened, Refusal>
    ensures known { IfOk result (λ found. AreKnown list.now replica found) }
    ensures bad { IfErr result (λ e. e ≢ Refusal.Memory
        → (e ≡ Refusal.BadOperation) × (IsCausallyClosed list.now → ⊥)) }
{
    let mut passed = Passed::new(alloc);
    let mut reader = list.reader();
    for i in 0..list.len() {
        reader.read()?;
        if let Err(refusal) = passed.pass(alloc, replica, &list.front(i), reader.op()) {
            return Err(refusal);
        }
    }
    let found = passed.finish(alloc)?;
    Ok(found)
}

impl Passed {
    /// Of no operations.
    fn new(alloc: Global) -> Passed
        ensures { (replica : ℕ) → ArePassed result replica [] }
    {
        Passed {
            clock: Clock::new(alloc),
            index: Index::new(alloc),
            numbers: Vec::new(alloc),
            drafts: Vec::new(alloc),
            tokens: Gathered::new(alloc),
        }
    }

    /// Passes an operation behind the others. `BadOperation` (47) exactly where it may not follow
    /// them; `Memory` (1) says nothing of that. It is decided before its document's draft takes it.
    fn pass(
        &mut self,
        alloc: Global,
        replica: ReplicaId,
        others: &RunSlice<'_>,
        op: &Op,
    ) -> Result<(), Refusal>
        requires { ArePassed self.old replica others.now }
        ensures passed { OnOk result (ArePassed self.new replica (others.now ++ op.now ∷ [])) }
        ensures bad { IfErr result (λ e. e ≢ Refusal.Memory
            → (e ≡ Refusal.BadOperation) × (MayFollow others.now op.now → ⊥)) }
    {
        let at = open(alloc, &mut self.numbers, &mut self.drafts, op.doc)?;
        if !self.may_take(others, op, at) {
            return Err(Refusal::BadOperation);
        }
        let behind = others.len();
        count(alloc, &mut self.clock, &mut self.index, op, behind)?;
        let rev = apply(&mut self.drafts, at, op)?;
        let place = Place {
            end: (behind + 1) as u32,
            rev: rev as u32,
        };
        self.tokens.count(replica, op, place)?;
        Ok(())
    }

    /// Whether an operation may follow the others, where the draft of its document has this index.
    /// Takes no memory. A few steps for clocks, a look at the last operation of its replica, and
    /// what `names_inserts_in` costs.
    fn may_take(&self, others: &RunSlice<'_>, op: &Op, at: usize) -> bool
        requires { IsOpenFor self.now op.now.doc at others.now }
        ensures { IsTrue result ↔ MayFollow others.now op.now }
    {
        let draft = &self.drafts[at];
        let has_place = self.numbers.len() <= MAX_DOCUMENTS;
        self.clock.ready(op.id.replica(), &op.deps)
            && is_counted_up(others, &self.index, op)
            && self.names_inserts_in(draft, others, op)
            && op.doc != 0
            && fits(others, &self.clock, &self.index, op, has_place)
    }

    /// Whether what an operation names are inserts of its document that its deps cover, with
    /// smaller counters. Takes no memory. What `is_covered_in` costs for the one character that an
    /// insert or a remove names, and what `is_covered_insert` costs for each that a mark names.
    fn names_inserts_in(&self, draft: &Draft, others: &RunSlice<'_>, op: &Op) -> bool
        requires counted { AreCounted others.now self.now.clock self.now.index }
        requires draft { IsDraftOf draft.now others.now }
        requires number { draft.now.number ≡ op.now.doc }
        ensures { result ≡ names_inserts_of others.now op.now }
    {
        match &op.body {
            Body::Insert {
                origin: Some(origin),
                ..
            } => self.names_insert_in(draft, others, op, origin),
            Body::Remove { target } => self.names_insert_in(draft, others, op, target),
            _ => names_inserts(others, &self.index, op),
        }
    }

    /// Whether an id that an operation names is that of an insert of its document that its deps
    /// cover, with a smaller counter.
    fn names_insert_in(&self, draft: &Draft, others: &RunSlice<'_>, op: &Op, id: &OpId) -> bool
        requires counted { AreCounted others.now self.now.clock self.now.index }
        requires draft { IsDraftOf draft.now others.now }
        requires number { draft.now.number ≡ op.now.doc }
        ensures { result ≡ (is_covered_insert_of others.now op.now.deps op.now.doc id.now
            && nat_lt id.now.counter op.now.id.counter) }
    {
        self.is_covered_in(draft, others, op, id) && id.counter() < op.id.counter()
    }

    /// Whether an insert of the operation's document with this id is among the operations that its
    /// deps cover. Where they cover all of the id's replica, it is if the draft has its character,
    /// which spares a look into the list: what `Draft::has` costs. Else what `is_covered_insert`
    /// costs. Takes no memory. A few steps for clocks.
    fn is_covered_in(&self, draft: &Draft, others: &RunSlice<'_>, op: &Op, id: &OpId) -> bool
        requires counted { AreCounted others.now self.now.clock self.now.index }
        requires draft { IsDraftOf draft.now others.now }
        requires number { draft.now.number ≡ op.now.doc }
        ensures { result ≡ is_covered_insert_of others.now op.now.deps op.now.doc id.now }
    {
        if op.deps.covers(id.replica(), self.clock.get(id.replica())) {
            return draft.has(*id);
        }
        is_covered_insert(others, &self.index, op, id)
    }

    /// The same with documents in place of drafts, and the tokens sorted. An error is out of memory
    /// (1).
    fn finish(self, alloc: Global) -> Result<Opened, Refusal>
        ensures known { IfOk result (λ found. (ops : List Op) (replica : ℕ)
            → ArePassed self replica ops → AreKnown ops replica found) }
        ensures memory { IfErr result (λ e. e ≡ Refusal.Memory) }
    {
        let Passed {
            clock,
            index,
            drafts,
            tokens,
            ..
        } = self;
        let docs = finished(alloc, drafts)?;
        let tokens = tokens.into_tokens(alloc)?;
        Ok(Opened {
            clock,
            docs,
            index,
            tokens,
        })
    }
}

/// Counts an operation that may follow the `behind` counted ones, so that the clock has room for
/// it. An error is out of memory (1).
fn count(
    alloc: Global,
    clock: &mut Clock,
    index: &mut Index,
    op: &Op,
    behind: usize,
) -> Result<(), Refusal>
    requires counts { IsOverfull (advanced clock.old op.now.id.replica) → ⊥ }
    requires few { behind < 2 ^ 32 }
    requires small { index.old.stream + record_length op.now < 2 ^ 64 }
    ensures clock { OnOk result (clock.new ≡ advanced clock.old op.now.id.replica) }
    ensures index { OnOk result ((ops : List Op) → IsIndexOf index.old ops → length ops ≡ behind
        → IsIndexOf index.new (ops ++ op.now ∷ [])) }
    ensures memory { IfErr result (λ e. e ≡ Refusal.Memory) }
{
    index.reserve(alloc, op.id.replica(), 1)?;
    advance(clock, op.id.replica())?;
    index.put(op, behind as u32);
    Ok(())
}
