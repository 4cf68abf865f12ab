//! A document takes operations.
ghost use Rattle.std.specs.Prelude.{◌≡◌, ◌↔◌, ℕ, [], List, false, OnErr, OnOk, IsErrOf};
ghost use Rattle.char_sequence.specs.Content.{Holds};
ghost use Rattle.doc_core.specs.Standing.{are_removes, are_there, is_remove, named_outside, StandsFor, Takes, TakesAll};
ghost use Rattle.doc_core.specs.Taking.{TakesIn, TakesAllIn};
ghost use Rattle.op_model.specs.Causality.{named_by};
ghost use Rattle.op_model.specs.declared.op.Op.{Op};

use crate::doc::Doc;
use crate::made::{Made, Part};
use char_sequence::{Sequence, SequenceError};
use mark_anchors::Anchors;
use op_model::{Body, Op};

impl Doc {
    /// Takes an operation of the document: an insert, a remove that leaves a tombstone, or a mark
    /// operation, which is kept and leaves the characters as they are. `UnknownId` (60) exactly
    /// where a character that it names isn't there, `Memory` (1) where a growth was refused, for
    /// which no remove asks; both leave the document as it was. Linear in the characters,
    /// tombstones counted.
    pub fn apply(&mut self, op: &Op) -> Result<(), SequenceError>
        ensures taken { OnOk result (Takes op.now self.old self.new) }
        ensures unknown { (ops : List Op) → StandsFor self.old ops
            → (IsErrOf result SequenceError.UnknownId
            ↔ (are_there ops self.old.number (named_by op.now.body) ≡ false)) }
        ensures memory { IsErrOf result SequenceError.Memory → is_remove op.now.body ≡ false }
        ensures number { self.new.number ≡ self.old.number }
        ensures err { OnErr result (self.new ≡ self.old) }
    {
        take(&mut self.sequence, &mut self.anchors, op)?;
        self.rev = self.rev.saturating_add(1);
        self.writers.put(op.id.replica());
        Ok(())
    }

    /// Takes the operations of an edit, whole or not at all. `UnknownId` (60) exactly where a
    /// character that they name isn't there, nor inserted by one of them before, `Memory` (1) where
    /// a growth was refused, for which no removes ask; both leave the document as it was. Linear in
    /// the characters for each operation.
    pub fn apply_edit(&mut self, edit: &Made) -> Result<(), SequenceError>
        ensures taken { OnOk result (TakesAll edit.now self.old self.new) }
        ensures unknown { (ops : List Op) → StandsFor self.old ops
            → (IsErrOf result SequenceError.UnknownId
            ↔ (are_there ops self.old.number (named_outside [] edit.now) ≡ false)) }
        ensures memory { IsErrOf result SequenceError.Memory → are_removes edit.now ≡ false }
        ensures number { self.new.number ≡ self.old.number }
        ensures err { OnErr result (self.new ≡ self.old) }
    {
        take_edit(&mut self.sequence, &mut self.anchors, edit)?;
        self.rev = self.rev.saturating_add(edit.as_slice().len() as u64);
        self.writers.put_all(edit.as_slice());
        Ok(())
    }
}

/// Takes what an operation does to the characters and to the marks.
fn take(sequence: &mut Sequence, anchors: &mut Anchors, op: &Op) -> Result<(), SequenceError>
    ensures taken { OnOk result (TakesIn op.now sequence.old sequence.new anchors.old anchors.new) }
    ensures unknown { (ops : List Op) (doc : ℕ) → Holds sequence.old ops doc
        → (IsErrOf result SequenceError.UnknownId
        ↔ (are_there ops doc (named_by op.now.body) ≡ false)) }
    ensures memory { IsErrOf result SequenceError.Memory → is_remove op.now.body ≡ false }
    ensures characters { OnErr result (sequence.new ≡ sequence.old) }
    ensures marks { OnErr result (anchors.new ≡ anchors.old) }
{
    match &op.body {
        Body::Insert { origin, value } => sequence.apply_insert(op.id, *origin, *value),
        Body::Remove { target } => sequence.apply_remove(*target),
        Body::AddMark { .. } => anchors.apply_mark(op, sequence),
        Body::RemoveMark { .. } => anchors.apply_mark(op, sequence),
    }
}

/// Takes what the operations of an edit do to the characters and to the marks.
fn take_edit(
    sequence: &mut Sequence,
    anchors: &mut Anchors,
    edit: &Made,
) -> Result<(), SequenceError>
    ensures taken { OnOk result
        (TakesAllIn edit.now sequence.old sequence.new anchors.old anchors.new) }
    ensures unknown { (ops : List Op) (doc : ℕ) → Holds sequence.old ops doc
        → (IsErrOf result SequenceError.UnknownId
        ↔ (are_there ops doc (named_outside [] edit.now) ≡ false)) }
    ensures memory { IsErrOf result SequenceError.Memory → are_removes edit.now ≡ false }
    ensures characters { OnErr result (sequence.new ≡ sequence.old) }
    ensures marks { OnErr result (anchors.new ≡ anchors.old) }
{
    match &edit.part {
        Part::Run { origin, run } => sequence.apply_run(*origin, run),
        Part::Removes { targets } => sequence.apply_removes(targets),
        Part::One => take(sequence, anchors, &edit.ops[0]),
    }
}
