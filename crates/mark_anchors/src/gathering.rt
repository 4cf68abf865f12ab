//! The mark operations of one document while it is opened.
ghost use Rattle.std.specs.Prelude.{◌≡◌, ◌↔◌, ℕ, List, [], ◌∷◌, ◌++◌, IfOk, IfErr, IsSome, OnOk, OnErr, IsErrOf};
ghost use Rattle.char_sequence.specs.Woven.{IsWovenOf};
ghost use Rattle.mark_anchors.specs.Gathered.{AreGathered};
ghost use Rattle.mark_anchors.specs.Keeping.{AreMarksOf};
ghost use Rattle.mark_anchors.specs.Naming.{NamesUnknown};
ghost use Rattle.op_model.specs.declared.op.Op.{Op};
ghost use Rattle.op_model.specs.Marks.{marking_of, markings as markings_of};
ghost use Rattle.op_model.specs.Placing.{Fits};

use crate::anchors::Anchors;
use crate::naming::check_names;
use char_sequence::{SequenceError, Weave};
use op_model::{Marking, Op};
use std::alloc::{AllocError, Global};
use std::marker::Model;

/// The mark operations of one document while many operations are taken, one after another: where
/// `Anchors` sorts the edges of each, this keeps it alone. At the end it gives the anchors.
/// Contracts see what is gathered by `AreGathered` alone.
#[derive(Debug, Drop)]
pub struct Gathering {
    /// In the order in which they came.
    markings: Vec<Marking>,
}

impl Model for Gathering {
    ghost use Rattle.mark_anchors.specs.Gathered.{Gathered};

    ghost Value = { Gathered };

    ghost view = { λ g. g.markings.items };
}

impl Gathering {
    /// That of a document without mark operations. Takes no memory.
    pub fn new(alloc: Global) -> Gathering
        ensures { (doc : ℕ) → AreGathered result [] doc }
    {
        Gathering {
            markings: Vec::new(alloc),
        }
    }

    /// Takes an operation of the document, whose characters are given: a mark operation is kept,
    /// another one adds nothing. `UnknownId` (60) exactly where a mark operation names a character
    /// that isn't there, `Memory` (1) where a growth for a mark operation was refused; both leave
    /// what is gathered as it was. It costs the search of both characters, as `Weave::has` does it.
    pub fn apply_mark(&mut self, op: &Op, weave: &Weave) -> Result<(), SequenceError>
        ensures taken { OnOk result ((ops : List Op) (doc : ℕ) → AreGathered self.old ops doc
            → Fits ops doc op.now → AreGathered self.new (ops ++ op.now ∷ []) doc) }
        ensures unknown { (ops : List Op) (doc : ℕ) → IsWovenOf weave.now ops doc
            → (IsErrOf result SequenceError.UnknownId ↔ NamesUnknown ops doc op.now.body) }
        ensures memory { IsErrOf result SequenceError.Memory
            → IsSome (marking_of op.now.id op.now.body) }
        ensures err { OnErr result (self.new ≡ self.old) }
    {
        check_names(weave, &op.body)?;
        keep(&mut self.markings, op)?;
        Ok(())
    }

    /// The anchors of a document whose mark operations these are. An error is out of memory (1).
    /// Their edges are sorted: as many steps as there are mark operations, times their logarithm.
    pub fn anchors(self) -> Result<Anchors, AllocError>
        ensures { IfOk result (λ a. (ops : List Op) (doc : ℕ)
            → AreGathered self ops doc → AreMarksOf a ops doc) }
    {
        Anchors::from_markings(self.markings)
    }
}

/// Keeps a mark operation behind the others; another operation adds nothing. An error is out of
/// memory (1), and leaves those that are kept as they were.
fn keep(markings: &mut Vec<Marking>, op: &Op) -> Result<(), AllocError>
    ensures taken { OnOk result (markings.new.items
        ≡ markings.old.items ++ markings_of (op.now ∷ []) op.now.doc) }
    ensures memory { IfErr result (λ _. IsSome (marking_of op.now.id op.now.body)) }
    ensures err { OnErr result (markings.new.items ≡ markings.old.items) }
{
    match op.marking()? {
        Some(marking) => markings.push(marking).map_err(AllocError::from)?,
        None => {}
    }
    Ok(())
}
