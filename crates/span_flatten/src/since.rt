//! What came for a document since a beginning of its operations.
ghost use Rattle.std.specs.Prelude.{◌≡◌, ◌+◌, ◌&&◌, ◌||◌, ℕ, not, List, [], ◌∷◌, ◌++◌, IfOk, OnOk};
ghost use Rattle.op_ids.specs.Id.{Id, is_same};
ghost use Rattle.op_model.specs.declared.op.Op.{Op};
ghost use Rattle.span_flatten.specs.Since.{was_seen, IsSince};
ghost use Rattle.span_flatten.specs.Since.{has_inserted, has_removed, older, removes_again};

use char_sequence::Cell;
use op_ids::OpId;
use op_model::{Body, Marking, Op};
use std::alloc::{AllocError, Global};
use std::collections::BTreeSet;

/// What came for a document since a beginning of its operations, as one finds it who goes back over
/// them: which characters were inserted, which ones were removed that weren't removed before, and
/// how many mark operations came.
#[derive(Debug, Drop)]
pub struct Since {
    /// The document's number.
    pub doc: u32,
    pub inserted: BTreeSet<OpId>,
    pub removed: BTreeSet<OpId>,
    pub marked: usize,
}

impl Since {
    /// Where nothing came for the document of this number. Takes no memory.
    pub fn new(alloc: Global, doc: u32) -> Since
        ensures { (before : List Op) → IsSince result before [] doc }
    {
        Since {
            doc,
            inserted: BTreeSet::new(alloc),
            removed: BTreeSet::new(alloc),
            marked: 0,
        }
    }

    /// Takes the operation that came just before those that were taken. One of another document
    /// changes nothing. A remove is a repeat if its character was removed before; the document was
    /// told that when the operation came. An error is out of memory (1). A search among those
    /// taken.
    pub fn take_before(&mut self, op: &Op, is_repeat: bool) -> Result<(), AllocError>
        ensures { OnOk result ((before more : List Op) (doc : ℕ)
            → IsSince self.old (before ++ op.now ∷ []) more doc
            → is_repeat ≡ removes_again before doc op.now.body
            → IsSince self.new before (op.now ∷ more) doc) }
    {
        if op.doc != self.doc {
            return Ok(());
        }
        match &op.body {
            Body::Insert { .. } => self.insert(op.id),
            Body::Remove { target } => self.remove(*target, is_repeat),
            Body::AddMark { .. } => self.mark(),
            Body::RemoveMark { .. } => self.mark(),
        }
    }
    /// A character was inserted. An error is out of memory (1), and leaves all as it was.
    fn insert(&mut self, id: OpId) -> Result<(), AllocError>
        ensures inserted { OnOk result ((other : Id) → has_inserted self.new other
            ≡ (is_same id other || has_inserted self.old other)) }
        ensures rest { (self.new.doc ≡ self.old.doc) × (self.new.removed ≡ self.old.removed)
            × (self.new.marked ≡ self.old.marked) }
    {
        self.inserted.insert(id)?;
        Ok(())
    }

    /// A character was removed, for the first time or again. An error is out of memory (1).
    fn remove(&mut self, id: OpId, is_repeat: bool) -> Result<(), AllocError>
        ensures removed { OnOk result ((other : Id) → has_removed self.new other
            ≡ ((not is_repeat && is_same id other) || has_removed self.old other)) }
        ensures rest { (self.new.doc ≡ self.old.doc) × (self.new.inserted ≡ self.old.inserted)
            × (self.new.marked ≡ self.old.marked) }
    {
        if !is_repeat {
            self.removed.insert(id)?;
        }
        Ok(())
    }

    /// A mark operation came. An error is out of memory (1): so many can't be counted.
    fn mark(&mut self) -> Result<(), AllocError>
        ensures marked { OnOk result (self.new.marked ≡ self.old.marked + 1) }
        ensures rest { (self.new.doc ≡ self.old.doc) × (self.new.inserted ≡ self.old.inserted)
            × (self.new.removed ≡ self.old.removed) }
    {
        self.marked = one_more(self.marked)?;
        Ok(())
    }

    /// Whether a reader saw this character before.
    pub(crate) fn has_seen(&self, cell: &Cell) -> bool
        ensures { result ≡ was_seen self.now cell.now }
    {
        let came = self.inserted.contains(&cell.id);
        let went = self.removed.contains(&cell.id);
        !came && (!cell.is_removed || went)
    }

    /// The mark operations of before, among all of the document. Constant.
    pub(crate) fn older<'a>(&self, markings: &'a [Marking]) -> &'a [Marking]
        ensures { result.now ≡ older self.now markings.now }
    {
        &markings[..markings.len().saturating_sub(self.marked)]
    }
}

/// One more. An error is out of memory (1): that ends long before so many are counted.
pub(crate) fn one_more(count: usize) -> Result<usize, AllocError>
    ensures { IfOk result (λ more. more ≡ count + 1) }
{
    sum(count, 1)
}

/// Both together. An error is out of memory (1): that ends long before so many are counted.
pub(crate) fn sum(count: usize, more: usize) -> Result<usize, AllocError>
    ensures { IfOk result (λ sum. sum ≡ count + more) }
{
    count.checked_add(more).ok_or(AllocError)
}
