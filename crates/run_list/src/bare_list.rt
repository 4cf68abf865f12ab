//! A list of operations, held as runs.
ghost use Rattle.std.specs.Prelude.{◌≡◌, [], length, take, IsTrue, ◌↔◌};

use crate::bare_slice::BareSlice;
use crate::finding::count_below;
use op_list::OpList;
use std::alloc::{AllocError, Global};
use std::marker::Model;

/// A list of operations, held as runs: of one that is typed right behind the one before it the
/// character alone is held, four bytes, and of each other one its record and 12 bytes. Contracts
/// see the list.
#[derive(Debug, Drop)]
pub(crate) struct BareList {
    /// For each operation the character that it types, or that it begins a run.
    pub(crate) marks: Vec<u32>,
    /// The operations that begin a run.
    pub(crate) firsts: OpList,
    /// Where these stand in the list.
    pub(crate) starts: Vec<u32>,
}

impl Model for BareList {
    ghost use Rattle.std.specs.Prelude.{List, None};
    ghost use Rattle.op_model.specs.declared.op.Op.{Op};

    ghost Value = { List Op };

    ghost use Rattle.run_list.specs.Runs.{unrolled, AreRuns};

    ghost view = { λ l. unrolled l.marks.items None l.firsts };

    ghost invariant = { λ l. AreRuns l.marks.items l.firsts l.starts.items };
}

impl BareList {
    /// The empty list. Takes no memory.
    pub(crate) fn new(alloc: Global) -> BareList
        ensures { result ≡ [] }
    {
        BareList {
            marks: Vec::new(alloc),
            firsts: OpList::new(alloc),
            starts: Vec::new(alloc),
        }
    }

    /// The operations. Constant.
    pub(crate) fn as_slice(&self) -> BareSlice<'_>
        ensures { result ≡ self.now }
    {
        BareSlice::new(self, self.len())
    }

    /// How many operations. Constant.
    pub(crate) fn len(&self) -> usize
        ensures { result ≡ length self.now }
    {
        self.marks.len()
    }

    /// Where its memory comes from.
    pub(crate) fn allocator(&self) -> Global {
        *self.marks.allocator()
    }

    /// Makes room for `more` further operations, of which those that begin a run have records of
    /// `bytes` bytes. An error is out of memory (1). Linear in the list where it moves, else
    /// constant.
    pub(crate) fn reserve(&mut self, more: usize, bytes: usize) -> Result<(), AllocError>
        ensures { self.new ≡ self.old }
    {
        self.marks.reserve(more)?;
        self.starts.reserve(more)?;
        self.firsts.reserve(more, bytes)
    }

    /// Keeps the first n operations, or all of them where they are fewer. Takes no memory. A search
    /// by halves.
    pub(crate) fn truncate(&mut self, n: usize)
        ensures { self.new ≡ take n self.old }
    {
        let count = count_below(&self.starts, n);
        self.marks.truncate(n);
        self.starts.truncate(count);
        self.firsts.truncate(count);
    }

    /// Whether it is this list. Takes no memory. Linear in what both hold: each list is held in one
    /// way.
    pub(crate) fn equals(&self, ops: &BareSlice<'_>) -> bool
        ensures { IsTrue result ↔ (self.now ≡ ops.now) }
    {
        let n = ops.len();
        if self.len() != n {
            return false;
        }
        let list = ops.list();
        let count = count_below(&list.starts, n);
        self.marks.as_slice() == &list.marks[..n]
            && self
                .firsts
                .as_slice()
                .is_same(&list.firsts.as_slice().front(count))
    }
}
