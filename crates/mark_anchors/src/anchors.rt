//! The mark operations of one document, and their ends.
ghost use Rattle.std.specs.Prelude.{◌≡◌, ◌↔◌, ℕ, List, [], ◌∷◌, ◌++◌, IfOk, IfErr, IsSome, OnOk, OnErr};
ghost use Rattle.std.specs.Prelude.{filter, map, IsErrOf};
ghost use Rattle.char_sequence.specs.Content.{Holds};
ghost use Rattle.mark_anchors.specs.Edges.{AreEdges};
ghost use Rattle.mark_anchors.specs.Ended.{AreAllKept};
ghost use Rattle.mark_anchors.specs.Force.{in_force as in_force_of, number};
ghost use Rattle.mark_anchors.specs.Keeping.{in_order, AreMarksOf};
ghost use Rattle.op_ids.specs.Id.{is_same};
ghost use Rattle.mark_anchors.specs.Naming.{NamesUnknown};
ghost use Rattle.op_model.specs.declared.op.Op.{Op};
ghost use Rattle.op_model.specs.Marks.{marking_of, markings as markings_of};
ghost use Rattle.op_model.specs.Placing.{Fits};
ghost use Rattle.op_model.specs.Walk.{walk};

use crate::edge::{Edge, end_edge, start_edge};
use crate::edge_chunks::EdgeChunks;
use crate::edges::{edges_of, has_end_after};
use crate::ended::{listed, note};
use crate::force::in_force;
use crate::naming::check_names;
use crate::place::Place;
use char_sequence::{EndsAfter, Sequence, SequenceError};
use op_ids::OpId;
use op_model::{Marking, Op};
use std::alloc::{AllocError, Global};
use std::marker::Model;

/// The mark operations of one document, and where they end. Contracts see what is kept by
/// `AreMarksOf` alone: that it is what the document's operations make.
#[derive(Debug, Drop)]
pub struct Anchors {
    markings: Vec<Marking>,
    edges: EdgeChunks,
    /// The characters that they end just after, in their order.
    ended: Vec<OpId>,
}

impl Model for Anchors {
    ghost use Rattle.mark_anchors.specs.Keeping.{Kept};
    ghost use Rattle.mark_anchors.specs.Ended.{AreAllKept};

    ghost Value = { Kept };

    ghost view = { λ a. record { markings = a.markings.items; edges = a.edges } };

    ghost invariant = { λ a. AreAllKept a.markings.items a.edges a.ended.items };
}

impl Anchors {
    /// Those of a document without mark operations. Takes no memory.
    pub fn new(alloc: Global) -> Anchors
        ensures { (doc : ℕ) → AreMarksOf result [] doc }
    {
        Anchors {
            markings: Vec::new(alloc),
            edges: EdgeChunks::new(alloc),
            ended: Vec::new(alloc),
        }
    }

    /// Those of a document whose mark operations are given in the order in which they came. An
    /// error is out of memory (1). Their edges are sorted: as many steps as there are mark
    /// operations, times their logarithm.
    pub fn from_markings(markings: Vec<Marking>) -> Result<Anchors, AllocError>
        ensures { IfOk result (λ a. (ops : List Op) (doc : ℕ)
            → markings.items ≡ markings_of ops doc → AreMarksOf a ops doc) }
    {
        let edges = edges_of(*markings.allocator(), &markings)?;
        let ended = listed(*markings.allocator(), &markings)?;
        Ok(Anchors {
            markings,
            edges,
            ended,
        })
    }

    /// The same mark operations again, and where they end. An error is out of memory (1). A step
    /// for each mark operation; their edges are copied as memory.
    pub fn copy(&self) -> Result<Anchors, AllocError>
        ensures { IfOk result (λ copied. copied ≡ self.now) }
    {
        let alloc = *self.markings.allocator();
        Ok(Anchors {
            markings: copied(alloc, &self.markings)?,
            edges: self.edges.copy()?,
            ended: Vec::from_slice(alloc, &self.ended)?,
        })
    }

    /// Takes an operation of the document, whose characters are given: a mark operation is kept,
    /// another one adds nothing. `UnknownId` (60) exactly where a mark operation names a character
    /// that isn't there, `Memory` (1) where a growth for a mark operation was refused; both leave
    /// the anchors as they were. It costs the search of both characters, as `Sequence::find` does
    /// it, and two more for its edges. Each edge moves at most some 512 others, and if its chunk is
    /// cut, the places of the chunks behind; one more at a character of many edges moves none.
    pub fn apply_mark(&mut self, op: &Op, sequence: &Sequence) -> Result<(), SequenceError>
        ensures taken { OnOk result ((ops : List Op) (doc : ℕ) → Holds sequence.now ops doc
            → AreMarksOf self.old ops doc → Fits ops doc op.now
            → AreMarksOf self.new (ops ++ op.now ∷ []) doc) }
        ensures unknown { (ops : List Op) (doc : ℕ) → Holds sequence.now ops doc
            → (IsErrOf result SequenceError.UnknownId ↔ NamesUnknown ops doc op.now.body) }
        ensures memory { IsErrOf result SequenceError.Memory
            → IsSome (marking_of op.now.id op.now.body) }
        ensures err { OnErr result (self.new ≡ self.old) }
    {
        check_names(sequence, &op.body)?;
        keep(&mut self.markings, &mut self.edges, &mut self.ended, op)?;
        Ok(())
    }

    /// The mark operations that are in force at a place, in the order in which they came: each
    /// begins there or before, and ends behind. An error is out of memory (1). A search for both
    /// characters of each mark operation, as `Sequence::find` does it.
    pub fn set_at(
        &self,
        alloc: Global,
        place: Place,
        sequence: &Sequence,
    ) -> Result<Vec<&Marking>, AllocError>
        ensures { IfOk result (λ found. (ops : List Op) (doc : ℕ) → Holds sequence.now ops doc
            → AreMarksOf self.now ops doc → map (λ m. m.now) found.items
            ≡ in_force_of (walk ops doc) (number place) (markings_of ops doc)) }
    {
        in_force(alloc, &self.markings, &place, sequence)
    }

    /// The mark operations in the order in which they came. For `span_flatten` alone. Constant.
    pub fn in_order(&self) -> &[Marking]
        ensures { result.now ≡ in_order self.now }
    {
        &self.markings
    }

    /// Where mark operations begin and end at a character. For `span_flatten` alone. Takes no
    /// memory. Logarithmic in the mark operations.
    pub fn edges_at(&self, id: OpId) -> &[Edge]
        ensures { result.now ≡ filter (λ e. is_same e.id id) self.now.edges }
    {
        self.edges.at(id)
    }

    /// What holds of the edges: they are those of the mark operations. For `span_flatten` alone. It
    /// does nothing.
    pub fn are_edges(&self)
        ensures { AreEdges (in_order self.now) self.now.edges }
    {
        let _ = &self.edges;
    }
}

impl EndsAfter for Anchors {
    ghost use Rattle.mark_anchors.specs.Keeping.{kept_end_after};

    ghost ends_after = { kept_end_after };

    /// Takes no memory. Logarithmic in the mark operations, and linear in those with an edge there.
    fn ends_after(&self, id: OpId) -> bool {
        self.are_edges();
        has_end_after(self.edges_at(id))
    }

    /// Constant. One that several mark operations end just after stands there as often.
    fn ended(&self) -> &[OpId] {
        let _ = &self.markings;
        &self.ended
    }
}

/// Keeps a mark operation and its edges; another operation adds nothing. An error is out of memory
/// (1), and leaves those that are kept as they were.
fn keep(
    markings: &mut Vec<Marking>,
    edges: &mut EdgeChunks,
    ended: &mut Vec<OpId>,
    op: &Op,
) -> Result<(), AllocError>
    requires { AreAllKept markings.old.items edges.old ended.old.items }
    ensures taken { OnOk result (markings.new.items
        ≡ markings.old.items ++ markings_of (op.now ∷ []) op.now.doc) }
    ensures kept { AreAllKept markings.new.items edges.new ended.new.items }
    ensures memory { IfErr result (λ _. IsSome (marking_of op.now.id op.now.body)) }
    ensures err { OnErr result ((markings.new.items ≡ markings.old.items)
        × (edges.new ≡ edges.old)) }
{
    match op.marking()? {
        Some(marking) => add(markings, edges, ended, marking),
        None => Ok(()),
    }
}

/// Keeps one more mark operation and its edges. An error is out of memory (1), and leaves those
/// that are kept as they were.
fn add(
    markings: &mut Vec<Marking>,
    edges: &mut EdgeChunks,
    ended: &mut Vec<OpId>,
    marking: Marking,
) -> Result<(), AllocError>
    requires { AreAllKept markings.old.items edges.old ended.old.items }
    ensures taken { OnOk result (markings.new.items ≡ markings.old.items ++ marking ∷ []) }
    ensures kept { AreAllKept markings.new.items edges.new ended.new.items }
    ensures err { OnErr result ((markings.new.items ≡ markings.old.items)
        × (edges.new ≡ edges.old)) }
{
    markings.reserve(1)?;
    ended.reserve(1)?;
    let i = markings.len();
    edges.put_both(start_edge(&marking.start, i), end_edge(&marking.end, i))?;
    note(ended, &marking.end);
    match markings.push(marking) {
        Ok(()) => Ok(()),
        Err(_) => unreachable!(),
    }
}

/// The same mark operations again. An error is out of memory (1).
fn copied(alloc: Global, markings: &[Marking]) -> Result<Vec<Marking>, AllocError>
    ensures { IfOk result (λ copied. copied.items ≡ markings.now) }
{
    let mut copied = Vec::with_capacity(alloc, markings.len())?;
    for marking in markings {
        copied.push(marking.copy()?)?;
    }
    Ok(copied)
}
