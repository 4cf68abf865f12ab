//! Which operations of a list remove a character that was removed before.
ghost use Rattle.std.specs.Prelude.{◌≡◌, ◌≤◌, ◌∷◌, ◌++◌, List, [], length, OnOk, OnErr};
ghost use Rattle.op_model.specs.declared.op.Op.{Op};
ghost use Rattle.span_flatten.specs.Since.{removes_again};
ghost use Rattle.replica_core.specs.Repeats.{has_noted, AreRepeats};

use std::alloc::{AllocError, Global};
use std::collections::BTreeSet;

/// Which operations of a list, from an index on, remove a character that was removed before. They
/// are few: two people delete the same, and neither knows of the other.
#[derive(Debug, Drop)]
pub struct Repeats {
    /// From this index on all are noted.
    pub from: usize,
    /// Their indexes.
    pub at: BTreeSet<usize>,
}

impl Repeats {
    /// Of a list of this length, of which nothing is known. Takes no memory.
    pub(crate) fn new(alloc: Global, len: usize) -> Repeats
        ensures none { (ops : List Op) → length ops ≡ len → AreRepeats result ops }
        ensures from { result.from ≡ len }
    {
        Repeats {
            from: len,
            at: BTreeSet::new(alloc),
        }
    }

    /// Whether the operation at an index is noted. A search among them.
    pub(crate) fn has(&self, i: usize) -> bool
        ensures { result ≡ has_noted self.now i }
    {
        self.at.contains(&i)
    }

    /// Notes, of the operation that comes after all others of the list, whether it removes a
    /// character that was removed before. An error is out of memory (1), and changes nothing. A
    /// search among them.
    pub(crate) fn note(&mut self, index: usize, is_repeat: bool) -> Result<(), AllocError>
        ensures noted { OnOk result ((ops : List Op) (op : Op) → AreRepeats self.old ops
            → length ops ≡ index → is_repeat ≡ removes_again ops op.doc op.body
            → AreRepeats self.new (ops ++ op ∷ [])) }
        ensures from { self.new.from ≡ self.old.from }
        ensures err { OnErr result (self.new ≡ self.old) }
    {
        if is_repeat {
            self.at.insert(index)?;
        }
        Ok(())
    }

    /// Takes the note of the last operation back, which comes to no list. A search among them.
    pub(crate) fn forget(&mut self, index: usize)
        requires { self.old.from ≤ index }
        ensures forgotten { (ops : List Op) (op : Op) → AreRepeats self.old (ops ++ op ∷ [])
            → length ops ≡ index → AreRepeats self.new ops }
        ensures from { self.new.from ≡ self.old.from }
    {
        self.at.remove(&index);
    }
}
