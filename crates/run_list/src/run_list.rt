//! A list of operations, held as runs, and their tokens beside them.
ghost use Rattle.std.specs.Prelude.{◌≡◌, [], length, take, IsTrue, ◌↔◌};

use crate::bare_list::BareList;
use crate::run_slice::RunSlice;
use crate::token_column::TokenColumn;
use std::alloc::{AllocError, Global};
use std::marker::Model;

/// A list of operations, held as runs: of one that is typed right behind the one before it the
/// character alone is held, four bytes, and of each other one its record without the token and 12
/// bytes; of a token that is not that of the operation before it, twenty bytes. Contracts see the
/// list.
#[derive(Debug, Drop)]
pub struct RunList {
    /// The operations without their tokens.
    pub(crate) bare: BareList,
    /// Their tokens.
    pub(crate) tokens: TokenColumn,
}

impl Model for RunList {
    ghost use Rattle.std.specs.Prelude.{List};
    ghost use Rattle.op_model.specs.declared.op.Op.{Op};

    ghost Value = { List Op };

    ghost use Rattle.run_list.specs.Told.{told, AreTold};

    ghost view = { λ l. told l.tokens l.bare };

    ghost invariant = { λ l. AreTold l.bare l.tokens };
}

impl RunList {
    /// The empty list. Takes no memory.
    pub fn new(alloc: Global) -> RunList
        ensures { result ≡ [] }
    {
        RunList {
            bare: BareList::new(alloc),
            tokens: TokenColumn::new(alloc),
        }
    }

    /// The operations. Constant.
    pub fn as_slice(&self) -> RunSlice<'_>
        ensures { result ≡ self.now }
    {
        RunSlice::new(self, self.len())
    }

    /// How many operations. Constant.
    pub fn len(&self) -> usize
        ensures { result ≡ length self.now }
    {
        self.bare.len()
    }

    /// Where its memory comes from.
    pub fn allocator(&self) -> Global {
        self.bare.allocator()
    }

    /// Makes room for `more` further operations, of which those that begin a run have records of
    /// `bytes` bytes, and for as many changes of the token. An error is out of memory (1). Linear
    /// in the list where it moves, else constant.
    pub fn reserve(&mut self, more: usize, bytes: usize) -> Result<(), AllocError>
        ensures { self.new ≡ self.old }
    {
        self.bare.reserve(more, bytes)?;
        self.tokens.reserve(more)
    }

    /// Keeps the first n operations, or all of them where they are fewer. Takes no memory. A search
    /// by halves.
    pub fn truncate(&mut self, n: usize)
        ensures { self.new ≡ take n self.old }
    {
        self.bare.truncate(n);
        self.tokens.truncate(n);
    }

    /// Whether it is this list. Takes no memory. Linear in what both hold: each list is held in one
    /// way.
    pub fn equals(&self, ops: &RunSlice<'_>) -> bool
        ensures { IsTrue result ↔ (self.now ≡ ops.now) }
    {
        self.bare.equals(&ops.bare()) && self.tokens.is_front(&ops.list().tokens, ops.len())
    }
}
