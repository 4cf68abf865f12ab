//! Several changes of a document are made on a copy of it.
ghost use Rattle.std.specs.Prelude.{◌≡◌, ◌++◌, List, IfErr, OnOk, None};
ghost use Rattle.op_model.specs.Actions.{edit_of};
ghost use Rattle.op_model.specs.declared.op.Op.{Op as Operation};
ghost use Rattle.op_model.specs.Made.{edit_refusal, made as made_of};
ghost use Rattle.replica_core.specs.Docs.{doc_number};
ghost use Rattle.replica_core.specs.Turns.{IsBehind};

use crate::counting::count_all;
use crate::refusal::Refusal;
use doc_core::{Doc, MakeError, SequenceError};
use op_ids::laws::replica_is_not_nil;
use op_ids::{Clock, ReplicaId, Token};
use op_model::{Author, Change, Op};
use std::alloc::Global;

/// A copy of a document while changes are made on it, and what they made so far. The document
/// itself stays as it is, so that all of them are made or none.
#[derive(Drop)]
pub struct Copying {
    pub doc: Doc,
    /// The clock with what was made.
    pub clock: Clock,
    /// The counter of the next operation.
    pub counter: u64,
    pub ops: Vec<Op>,
}

impl Copying {
    /// Makes one more change, which nothing refuses after all operations so far. An error is out
    /// of memory (1). Costs what `Doc::make` and `Doc::apply_edit` do.
    pub(crate) fn make(
        &mut self,
        alloc: Global,
        replica: ReplicaId,
        token: Option<Token>,
        change: &Change,
    ) -> Result<(), Refusal>
        requires { (ops : List Operation) × IsBehind self.old ops
            × (edit_refusal ops replica (edit_of (doc_number self.old.doc) token change.now)
            ≡ None) }
        ensures made { OnOk result ((ops : List Operation) → IsBehind self.old ops
            → edit_refusal ops replica (edit_of (doc_number self.old.doc) token change.now) ≡ None
            → IsBehind self.new
            (ops ++ made_of ops replica (edit_of (doc_number self.old.doc) token change.now))
            × (self.new.ops.items ≡ self.old.ops.items
            ++ made_of ops replica (edit_of (doc_number self.old.doc) token change.now))) }
        ensures number { doc_number self.new.doc ≡ doc_number self.old.doc }
        ensures memory { IfErr result (λ e. e ≡ Refusal.Memory) }
    {
        // From these the proof has that the clock's counts are in range, and the replica isn't nil.
        let _entries = self.clock.entries();
        replica_is_not_nil(replica);
        let author = Author {
            replica,
            token,
            counter: self.counter,
            clock: &self.clock,
        };
        let made = match self.doc.make(alloc, &author, change) {
            Ok(made) => made,
            Err(MakeError::Memory) => return Err(Refusal::Memory),
            Err(MakeError::Range) => unreachable!(),
            Err(MakeError::Limit) => unreachable!(),
        };
        match self.doc.apply_edit(&made) {
            Ok(()) => {}
            Err(SequenceError::Memory) => return Err(Refusal::Memory),
            Err(SequenceError::UnknownId) => unreachable!(),
        }
        count_all(&mut self.clock, made.as_slice())?;
        let mut ops = made.into_ops();
        self.counter += ops.len() as u64;
        self.ops.append(&mut ops)?;
        Ok(())
    }
}
