//! A borrowed list of operations.
ghost use Rattle.std.specs.Prelude.{◌≡◌, ◌<◌, ◌≤◌, ◌^◌, length, take, slice_index_or, IfOk, MatchOption};
ghost use Rattle.op_list.specs.Heads.{heads};
ghost use Rattle.change_codec.specs.Stream.{AreOperations};
ghost use Rattle.run_list.specs.NextOnes.{BeginsRun, GoesOnWith};

use crate::bare_list::BareList;
use op_list::OpHead;
use op_model::Op;
use std::alloc::AllocError;
use std::marker::Model;

/// The first operations of a list that is held as runs. Contracts see the list.
#[derive(Debug, Drop)]
pub(crate) struct BareSlice<'a> {
    list: &'a BareList,
    len: usize,
}

impl<'a> Model for BareSlice<'a> {
    ghost use Rattle.std.specs.Prelude.{◌≤◌, List, length, take};
    ghost use Rattle.op_model.specs.declared.op.Op.{Op};

    ghost Value = { List Op };

    ghost view = { λ s. take s.len s.list.now };

    ghost invariant = { λ s. s.len ≤ length s.list.now };
}

impl<'a> BareSlice<'a> {
    /// The first operations of a list. Constant.
    pub(crate) fn new(list: &'a BareList, len: usize) -> BareSlice<'a>
        requires { len ≤ length list.now }
        ensures { result ≡ take len list.now }
    {
        BareSlice { list, len }
    }

    /// The list that these are the first operations of.
    pub(crate) fn list(&self) -> &'a BareList
        ensures front { take (length self.now) result.now ≡ self.now }
        ensures within { length self.now ≤ length result.now }
    {
        self.list
    }

    /// How many operations. Constant.
    pub(crate) fn len(&self) -> usize
        ensures { result ≡ length self.now }
    {
        self.len
    }

    /// Tells what the type keeps. Costs nothing.
    pub(crate) fn kept(&self)
        ensures fits { AreOperations self.now }
        ensures few { length self.now < 2 ^ 32 }
    {
        // For the proof: with a field read, it knows what the list keeps.
        self.list.kept();
    }

    /// The first n operations. Constant.
    pub(crate) fn front(&self, n: usize) -> BareSlice<'a>
        requires { n ≤ length self.now }
        ensures { result ≡ take n self.now }
    {
        BareSlice::new(self.list, n)
    }

    /// The head of the i-th operation, counted from 0. A search by halves for its run; takes no
    /// memory.
    pub(crate) fn head(&self, i: usize) -> OpHead
        requires { i < length self.now }
        ensures { result ≡ slice_index_or (heads self.now) i result }
    {
        self.list.head(i)
    }

    /// The i-th operation, counted from 0. An error is out of memory (1). A search by halves for
    /// its run, and linear in the record of the first operation of that.
    pub(crate) fn get(&self, i: usize) -> Result<Op, AllocError>
        requires { i < length self.now }
        ensures { IfOk result (λ op. op ≡ slice_index_or self.now i op) }
    {
        self.list.get(i)
    }

    /// The character that the i-th operation types, counted from 0, if it goes on with its run.
    /// Constant.
    pub(crate) fn typed_mark(&self, i: usize) -> Option<char>
        requires { i < length self.now }
        ensures { MatchOption result (BeginsRun self.now i) (GoesOnWith self.now i) }
    {
        self.list.typed_mark(i)
    }
}
