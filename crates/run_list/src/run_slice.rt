//! A borrowed list of operations.
ghost use Rattle.std.specs.Prelude.{◌≡◌, ◌<◌, ◌≤◌, ◌^◌, length, map, take, drop, slice_index_or, IfOk};
ghost use Rattle.op_list.specs.Heads.{heads};
ghost use Rattle.change_codec.specs.Stream.{AreOperations};
ghost use Rattle.run_list.specs.Told.{bare_ops};

use crate::bare_slice::BareSlice;
use crate::run_list::RunList;
use crate::run_reader::RunReader;
use op_ids::Token;
use op_list::OpHead;
use op_model::Op;
use std::alloc::{AllocError, Global};
use std::marker::Model;

/// The first operations of a list that is held as runs. Contracts see the list.
#[derive(Debug, Drop)]
pub struct RunSlice<'a> {
    list: &'a RunList,
    len: usize,
}

impl<'a> Model for RunSlice<'a> {
    ghost use Rattle.std.specs.Prelude.{◌≤◌, List, length, take};
    ghost use Rattle.op_model.specs.declared.op.Op.{Op};

    ghost Value = { List Op };

    ghost view = { λ s. take s.len s.list.now };

    ghost invariant = { λ s. s.len ≤ length s.list.now };
}

impl<'a> RunSlice<'a> {
    /// The first operations of a list. Constant.
    pub(crate) fn new(list: &'a RunList, len: usize) -> RunSlice<'a>
        requires { len ≤ length list.now }
        ensures { result ≡ take len list.now }
    {
        RunSlice { list, len }
    }

    /// The list that these are the first operations of.
    pub(crate) fn list(&self) -> &'a RunList
        ensures front { take (length self.now) result.now ≡ self.now }
        ensures within { length self.now ≤ length result.now }
    {
        self.list
    }

    /// The operations without their tokens.
    pub(crate) fn bare(&self) -> BareSlice<'a>
        ensures { result ≡ bare_ops self.now }
    {
        let list = self.list;
        list.bare.as_slice().front(self.len)
    }

    /// How many operations. Constant.
    pub fn len(&self) -> usize
        ensures { result ≡ length self.now }
    {
        self.len
    }

    /// Tells what the type keeps. Costs nothing.
    pub fn kept(&self)
        ensures fits { AreOperations self.now }
        ensures few { length self.now < 2 ^ 32 }
    {
        // For the proof: with a field read, it knows what the list keeps.
        self.list.kept();
    }

    /// What reads the operations in their order. Constant.
    pub fn reader(&self) -> RunReader<'a>
        ensures { result ≡ record { list = self.now; at = 0 } }
    {
        RunReader::new(RunSlice::new(self.list, self.len))
    }

    /// The first n operations. Constant.
    pub fn front(&self, n: usize) -> RunSlice<'a>
        requires { n ≤ length self.now }
        ensures { result ≡ take n self.now }
    {
        RunSlice::new(self.list, n)
    }

    /// The head of the i-th operation, counted from 0. A search by halves for its run; takes no
    /// memory.
    pub fn head(&self, i: usize) -> OpHead
        requires { i < length self.now }
        ensures { result ≡ slice_index_or (heads self.now) i result }
    {
        self.list.head(i)
    }

    /// The token of the i-th operation, counted from 0, if it has one. A search by halves; takes no
    /// memory.
    pub fn token(&self, i: usize) -> Option<Token>
        requires { i < length self.now }
        ensures { result ≡ slice_index_or (map (λ op. op.token) self.now) i result }
    {
        self.list.token(i)
    }

    /// The i-th operation, counted from 0. An error is out of memory (1). A search by halves for
    /// its run and one for its token, and linear in the record of the run's first operation.
    pub fn get(&self, i: usize) -> Result<Op, AllocError>
        requires { i < length self.now }
        ensures { IfOk result (λ op. op ≡ slice_index_or self.now i op) }
    {
        self.list.get(i)
    }

    /// The operations from the n-th on, counted from 0. An error is out of memory (1). What `get`
    /// costs for each.
    pub fn copy_from(&self, alloc: Global, n: usize) -> Result<Vec<Op>, AllocError>
        requires { n ≤ length self.now }
        ensures { IfOk result (λ ops. ops.items ≡ drop n self.now) }
    {
        let mut ops = Vec::new(alloc);
        for i in n..self.len {
            ops.push(self.get(i)?)?;
        }
        Ok(ops)
    }
}
