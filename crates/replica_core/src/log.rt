//! The operations of a replica, and what is known of them.
ghost use Rattle.std.specs.Prelude.{◌≡◌, ◌++◌, OnOk, OnErr, IsErrOf};
ghost use Rattle.char_sequence.specs.Content.{FitAfter};
ghost use Rattle.op_model.specs.Causality.{made_by};
ghost use Rattle.op_model.specs.Rising.{IsPlace};
ghost use Rattle.replica_core.specs.Docs.{numbers, AreDocs};
ghost use Rattle.replica_core.specs.Edited.{ops_of, IsCopy, IsCopyOf};
ghost use Rattle.replica_core.specs.Log.{HasRoom, IsAppended, IsSame};

use crate::docs;
use crate::edited::Edited;
use crate::index::Index;
use doc_core::{Doc, Made, SequenceError};
use op_ids::ReplicaId;
use op_model::Op;
use run_list::RunList;
use std::alloc::AllocError;

/// The operations of a replica, and what is known of them.
#[derive(Debug, Drop)]
pub struct Log {
    /// The operations, in the order of application.
    pub list: RunList,
    /// The documents that have operations, in rising order of number.
    pub docs: Vec<Doc>,
    /// What is known of the list without a pass over it.
    pub index: Index,
}

impl Log {
    /// Puts the operations of an action of this replica and document, which has this place, behind
    /// all others: all of them, or none. The errors of `append`.
    pub(crate) fn append_edited(
        &mut self,
        edited: Edited,
        replica: ReplicaId,
        doc: u32,
        place: Result<usize, usize>,
    ) -> Result<(), SequenceError>
        requires place { IsPlace (numbers self.old.docs.items) doc place }
        requires room { HasRoom self.old (ops_of edited) }
        requires own { made_by replica (ops_of edited) ≡ ops_of edited }
        requires copy { IsCopyOf edited self.old.list doc }
        ensures ok { OnOk result (IsAppended self.old self.new (ops_of edited) doc) }
        ensures known { IsErrOf result SequenceError.UnknownId
            → AreDocs self.old.docs.items self.old.list
            → FitAfter self.old.list doc (ops_of edited) → ⊥ }
        ensures err { OnErr result (IsSame self.old self.new) }
    {
        match edited {
            Edited::One(made) => self.append(&made, replica, doc, place),
            Edited::Several { ops, copy } => {
                Ok(self.append_copied(&ops, copy, replica, doc, place)?)
            }
        }
    }

    /// The same for operations that a copy of the document has, which takes its place. An error is
    /// out of memory (1).
    fn append_copied(
        &mut self,
        ops: &[Op],
        copy: Doc,
        replica: ReplicaId,
        doc: u32,
        place: Result<usize, usize>,
    ) -> Result<(), AllocError>
        requires place { IsPlace (numbers self.old.docs.items) doc place }
        requires room { HasRoom self.old ops.now }
        requires own { made_by replica ops.now ≡ ops.now }
        requires copy { IsCopy copy (self.old.list ++ ops.now) doc }
        ensures ok { OnOk result (IsAppended self.old self.new ops.now doc) }
        ensures err { OnErr result (IsSame self.old self.new) }
    {
        let alloc = self.list.allocator();
        self.index.reserve(alloc, replica, ops.len())?;
        let before = self.list.len();
        self.list.append(ops)?;
        match docs::put(&mut self.docs, doc, place, copy) {
            Ok(()) => {}
            Err(refused) => {
                self.list.truncate(before);
                return Err(refused);
            }
        }
        self.index.put_all(ops, replica, before as u32);
        Ok(())
    }

    /// Puts operations of one replica and of one document, which has this place, behind all
    /// others: all of them, or none. `Memory` (1) where a growth is refused, `UnknownId` (60) only
    /// where the document can't take them.
    pub(crate) fn append(
        &mut self,
        made: &Made,
        replica: ReplicaId,
        doc: u32,
        place: Result<usize, usize>,
    ) -> Result<(), SequenceError>
        requires place { IsPlace (numbers self.old.docs.items) doc place }
        requires room { HasRoom self.old made.now }
        requires own { made_by replica made.now ≡ made.now }
        ensures ok { OnOk result (IsAppended self.old self.new made.now doc) }
        ensures known { IsErrOf result SequenceError.UnknownId
            → AreDocs self.old.docs.items self.old.list
            → FitAfter self.old.list doc made.now → ⊥ }
        ensures err { OnErr result (IsSame self.old self.new) }
    {
        let alloc = self.list.allocator();
        let ops = made.as_slice();
        self.index.reserve(alloc, replica, ops.len())?;
        let before = self.list.len();
        self.list.append(ops)?;
        match docs::apply(&mut self.docs, alloc, doc, place, made) {
            Ok(()) => {}
            Err(refused) => {
                self.list.truncate(before);
                return Err(refused);
            }
        }
        self.index.put_all(ops, replica, before as u32);
        Ok(())
    }
}
