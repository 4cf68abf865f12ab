//! The tokens of a list of operations, as numbers.
ghost use Rattle.std.specs.Prelude.{◌≡◌, ◌<◌, ◌≤◌, [], ◌∷◌, ◌++◌, length, take, suc, slice_index_or, OnOk, OnErr, IsTrue, ◌↔◌};
ghost use Rattle.run_list.specs.Column.{changes_in, number_behind};

use crate::finding::count_below;
use std::alloc::{AllocError, Global};
use std::marker::Model;

/// The most numbers, whose places are counted in 32 bits.
const MOST_NUMBERS: usize = 4_294_967_295;

/// The tokens of a list of operations: each as its number, and 0 where there is none. Of a number
/// that is that of the operation before nothing is held, and of each other one 20 bytes. Contracts
/// see the list of the numbers.
#[derive(Debug, Drop)]
pub(crate) struct TokenColumn {
    /// Where a number stands that is not the one before it: before the first one stands 0.
    starts: Vec<u32>,
    /// These numbers.
    changes: Vec<u128>,
    /// How many numbers.
    len: usize,
}

impl Model for TokenColumn {
    ghost use Rattle.std.specs.Prelude.{ℕ, List};

    ghost Value = { List ℕ };

    ghost use Rattle.run_list.specs.Column.{numbers_of, IsColumn};

    ghost view = { λ c. numbers_of c.starts.items c.changes.items c.len };

    ghost invariant = { λ c. IsColumn c.starts.items c.changes.items c.len };
}

impl TokenColumn {
    /// The empty column. Takes no memory.
    pub(crate) fn new(alloc: Global) -> TokenColumn
        ensures { result ≡ [] }
    {
        TokenColumn {
            starts: Vec::new(alloc),
            changes: Vec::new(alloc),
            len: 0,
        }
    }

    /// How many numbers. Constant.
    pub(crate) fn len(&self) -> usize
        ensures { result ≡ length self.now }
    {
        self.len
    }

    /// The i-th number, counted from 0. A search by halves.
    pub(crate) fn get(&self, i: usize) -> u128
        requires { i < length self.now }
        ensures { result ≡ slice_index_or self.now i result }
    {
        self.number_with(i, self.changes_up_to(i))
    }

    /// The i-th number, counted from 0, where so many changes stand up to it. Constant.
    pub(crate) fn number_with(&self, i: usize, changes: usize) -> u128
        requires within { i < length self.now }
        requires changes { changes ≡ changes_in (take (suc i) self.now) }
        ensures { result ≡ slice_index_or self.now i result }
    {
        if changes == 0 {
            return 0;
        }
        self.changes[changes - 1]
    }

    /// How many changes stand up to the i-th number, counted from 0, where so many stand before it.
    /// Constant.
    pub(crate) fn changes_with(&self, i: usize, changes: usize) -> usize
        requires { changes ≡ changes_in (take i self.now) }
        ensures { result ≡ changes_in (take (suc i) self.now) }
    {
        if changes >= self.starts.len() {
            return changes;
        }
        if self.starts[changes] as usize == i {
            return changes + 1;
        }
        changes
    }

    /// Makes room for so many further changes. An error is out of memory (1).
    pub(crate) fn reserve(&mut self, more: usize) -> Result<(), AllocError>
        ensures { self.new ≡ self.old }
    {
        self.starts.reserve(more)?;
        self.changes.reserve(more)
    }

    /// Puts a number behind the others. An error is out of memory (1), and it is one too where
    /// there would be 2^32 of them. Constant.
    pub(crate) fn push(&mut self, number: u128) -> Result<(), AllocError>
        ensures ok { OnOk result (self.new ≡ self.old ++ number ∷ []) }
        ensures err { OnErr result (self.new ≡ self.old) }
    {
        if self.len >= MOST_NUMBERS {
            return Err(AllocError);
        }
        if number == self.last() {
            self.len += 1;
            return Ok(());
        }
        self.starts.reserve(1)?;
        self.changes.push(number)?;
        self.starts.push_reserved(self.len as u32);
        self.len += 1;
        Ok(())
    }

    /// Keeps the first n numbers, or all of them where they are fewer. Takes no memory. A search by
    /// halves.
    pub(crate) fn truncate(&mut self, n: usize)
        ensures { self.new ≡ take n self.old }
    {
        if n < self.len {
            let count = count_below(&self.starts, n);
            self.starts.truncate(count);
            self.changes.truncate(count);
            self.len = n;
        }
    }

    /// Whether these are the first n numbers of another column. Takes no memory. Linear in the
    /// changes: each column is held in one way.
    pub(crate) fn is_front(&self, other: &TokenColumn, n: usize) -> bool
        requires { n ≤ length other.now }
        ensures { IsTrue result ↔ (self.now ≡ take n other.now) }
    {
        if self.len != n {
            return false;
        }
        let count = count_below(&other.starts, n);
        self.starts.as_slice() == &other.starts[..count]
            && self.changes.as_slice() == &other.changes[..count]
    }

    /// How many changes stand before the i-th number, counted from 0. A search by halves.
    pub(crate) fn changes_before(&self, i: usize) -> usize
        ensures { result ≡ changes_in (take i self.now) }
    {
        count_below(&self.starts, i)
    }

    /// The last number, or 0 where there is none. Constant.
    fn last(&self) -> u128
        ensures { result ≡ number_behind 0 self.now }
    {
        let count = self.changes.len();
        if count == 0 {
            return 0;
        }
        self.changes[count - 1]
    }

    /// How many changes stand up to the i-th number, counted from 0. It is looked whether all do;
    /// else a search by halves.
    fn changes_up_to(&self, i: usize) -> usize
        requires { i < length self.now }
        ensures { result ≡ changes_in (take (suc i) self.now) }
    {
        if self.is_behind_changes(i) {
            return self.starts.len();
        }
        count_below(&self.starts, i + 1)
    }

    /// Whether all changes stand up to the i-th number, counted from 0. Constant.
    fn is_behind_changes(&self, i: usize) -> bool
        ensures { IsTrue result → changes_in (take (suc i) self.now) ≡ changes_in self.now }
    {
        let count = self.starts.len();
        count == 0 || self.starts[count - 1] as usize <= i
    }
}
