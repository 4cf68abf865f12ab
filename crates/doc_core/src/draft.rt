//! One document while it is opened.
ghost use Rattle.std.specs.Prelude.{◌≡◌, ◌↔◌, ◌<◌, ◌^◌, ℕ, List, [], false, Some, IfOk, OnOk, OnErr, IsErrOf};
ghost use Rattle.char_sequence.specs.Content.{is_there};
ghost use Rattle.char_sequence.specs.Woven.{IsWovenOf};
ghost use Rattle.doc_core.specs.Drafting.{IsDraftOf, TakesDraft};
ghost use Rattle.doc_core.specs.Standing.{are_there, is_remove, StandsFor};
ghost use Rattle.doc_core.specs.Taking.{TakesWoven};
ghost use Rattle.op_model.specs.declared.op.Op.{Op};
ghost use Rattle.op_model.specs.Causality.{named_by};
ghost use Rattle.op_model.specs.Text.{rev as rev_of};

use crate::doc::Doc;
use char_sequence::{SequenceError, Weave};
use list_counts::Writers;
use mark_anchors::Gathering;
use op_ids::OpId;
use op_model::{Body, Op};
use std::alloc::{AllocError, Global};
use std::marker::Model;

/// A document while many operations are applied to it, one after another: its characters are a
/// weave, which no insert moves. At the end it gives the document.
#[derive(Debug, Drop)]
pub struct Draft {
    /// Its number.
    doc: u32,
    weave: Weave,
    gathering: Gathering,
    /// How many operations it has; 2^64 - 1 stands for more too.
    rev: u64,
    /// Who wrote in it.
    writers: Writers,
}

impl Model for Draft {
    ghost use Rattle.doc_core.specs.Drafting.{Drafted};

    ghost Value = { Drafted };

    ghost view = { λ d. record {
      number = d.doc;
      characters = d.weave;
      marks = d.gathering;
      rev = d.rev;
      writers = d.writers;
    } };
}

impl Draft {
    /// The draft of the document of this number without operations. An error is out of memory (1).
    pub fn new(alloc: Global, doc: u32) -> Result<Draft, AllocError>
        ensures number { IfOk result (λ d. d.number ≡ doc) }
        ensures empty { IfOk result (λ d. IsDraftOf d []) }
    {
        Ok(Draft {
            doc,
            weave: Weave::new(alloc)?,
            gathering: Gathering::new(alloc),
            rev: 0,
            writers: Writers::new(),
        })
    }

    /// Its number. Constant.
    pub fn number(&self) -> u32
        ensures { result ≡ self.now.number }
    {
        self.doc
    }

    /// How many operations it has, if fewer than 2^64. Takes no memory. Constant.
    pub fn rev(&self) -> u64
        ensures { (ops : List Op) → IsDraftOf self.now ops
            → rev_of ops self.now.number < 2 ^ 64 → result ≡ rev_of ops self.now.number }
    {
        self.rev
    }

    /// Whether one of the document's inserts has this id, also where its character is removed.
    /// Takes no memory. A binary search; a search of all characters only where the hint is wrong.
    pub fn has(&self, id: OpId) -> bool
        ensures { (ops : List Op) → IsDraftOf self.now ops
            → result ≡ is_there ops self.now.number (Some id) }
    {
        self.weave.has(id)
    }

    /// Takes an operation of the document. `UnknownId` (60) exactly where a character that it names
    /// isn't there, `Memory` (1) where a growth was refused, for which no remove asks; both
    /// leave the draft as it was. A
    /// binary search for each character that it names, and for an insert a step for each greater id
    /// that follows its origin.
    pub fn apply(&mut self, op: &Op) -> Result<(), SequenceError>
        ensures taken { OnOk result (TakesDraft op.now self.old self.new) }
        ensures unknown { (ops : List Op) → IsDraftOf self.old ops
            → (IsErrOf result SequenceError.UnknownId
            ↔ (are_there ops self.old.number (named_by op.now.body) ≡ false)) }
        ensures memory { IsErrOf result SequenceError.Memory → is_remove op.now.body ≡ false }
        ensures number { self.new.number ≡ self.old.number }
        ensures err { OnErr result (self.new ≡ self.old) }
    {
        take(&mut self.weave, &mut self.gathering, op)?;
        self.rev = self.rev.saturating_add(1);
        self.writers.put(op.id.replica());
        Ok(())
    }

    /// The document, in place of the draft: it keeps the draft's marks, and the weave is let go. An
    /// error is out of memory (1). A step for each character.
    pub fn finish(self, alloc: Global) -> Result<Doc, AllocError>
        ensures number { IfOk result (λ d. d.number ≡ self.number) }
        ensures stands { IfOk result (λ d. (ops : List Op) → IsDraftOf self ops
            → StandsFor d ops) }
    {
        let mut sequence = self.weave.sequence(alloc)?;
        drop(self.weave);
        sequence.note_all();
        let anchors = self.gathering.anchors()?;
        Ok(Doc {
            doc: self.doc,
            sequence,
            anchors,
            rev: self.rev,
            writers: self.writers.copy(),
        })
    }
}

/// Takes what an operation does to the characters and to the marks.
fn take(weave: &mut Weave, gathering: &mut Gathering, op: &Op) -> Result<(), SequenceError>
    ensures taken { OnOk result
        (TakesWoven op.now weave.old weave.new gathering.old gathering.new) }
    ensures unknown { (ops : List Op) (doc : ℕ) → IsWovenOf weave.old ops doc
        → (IsErrOf result SequenceError.UnknownId
        ↔ (are_there ops doc (named_by op.now.body) ≡ false)) }
    ensures memory { IsErrOf result SequenceError.Memory → is_remove op.now.body ≡ false }
    ensures characters { OnErr result (weave.new ≡ weave.old) }
    ensures marks { OnErr result (gathering.new ≡ gathering.old) }
{
    match &op.body {
        Body::Insert { origin, value } => weave.insert(op.id, *origin, *value),
        Body::Remove { target } => weave.remove(*target),
        Body::AddMark { .. } => gathering.apply_mark(op, weave),
        Body::RemoveMark { .. } => gathering.apply_mark(op, weave),
    }
}
