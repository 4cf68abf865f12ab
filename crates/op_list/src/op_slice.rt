//! A borrowed list of operations.
ghost use Rattle.std.specs.Prelude.{◌≡◌, ◌<◌, ◌≤◌, length, map, take, drop, slice_index_or, IfOk, IsTrue, ◌↔◌};
ghost use Rattle.op_list.specs.Heads.{heads};
ghost use Rattle.op_list.specs.Held.{held, IsHeld};
ghost use Rattle.op_model.specs.Records.{stream_length};
ghost use Rattle.change_codec.specs.Stream.{spelled_all, AreOperations};

use crate::head::OpHead;
use change_codec::{CodecError, Format, StreamError, record_head, record_token, take_op, take_ops};
use op_ids::Token;
use op_model::Op;
use std::alloc::{AllocError, Global};
use std::marker::Model;

/// A borrowed list of operations, held as their records. Contracts see the list.
#[derive(Debug, Drop)]
pub struct OpSlice<'a> {
    records: &'a [u8],
    /// Where each record ends, in bytes from the beginning.
    ends: &'a [u32],
}

impl<'a> Model for OpSlice<'a> {
    ghost use Rattle.std.specs.Prelude.{List};
    ghost use Rattle.op_model.specs.declared.op.Op.{Op};

    ghost Value = { List Op };

    ghost use Rattle.op_list.specs.Held.{held, IsHeld};

    ghost view = { λ s. held s.records.now s.ends.now };

    ghost invariant = { λ s. IsHeld s.records.now s.ends.now };
}

impl<'a> OpSlice<'a> {
    pub(crate) fn new(records: &'a [u8], ends: &'a [u32]) -> OpSlice<'a>
        requires { IsHeld records.now ends.now }
        ensures { result ≡ held records.now ends.now }
    {
        OpSlice { records, ends }
    }

    /// How many operations. Constant.
    pub fn len(&self) -> usize
        ensures { result ≡ length self.now }
    {
        self.ends.len()
    }

    /// The first n operations. Constant.
    pub fn front(&self, n: usize) -> OpSlice<'a>
        requires { n ≤ length self.now }
        ensures { result ≡ take n self.now }
    {
        OpSlice {
            records: self.records.split_at(self.start(n)).0,
            ends: self.ends.split_at(n).0,
        }
    }

    /// The head of the i-th operation, counted from 0. Constant; takes no memory.
    pub fn head(&self, i: usize) -> OpHead
        requires { i < length self.now }
        ensures { result ≡ slice_index_or (heads self.now) i result }
    {
        OpHead::of_record(record_head(self.records_from(i)))
    }

    /// The token of the i-th operation, counted from 0, if it has one. Passes over its deps, at
    /// most 16; takes no memory.
    pub fn token(&self, i: usize) -> Option<Token>
        requires { i < length self.now }
        ensures { result ≡ slice_index_or (map (λ op. op.token) self.now) i result }
    {
        record_token(self.records_from(i))
    }

    /// The i-th operation, counted from 0. An error is out of memory (1). Linear in its record.
    pub fn get(&self, alloc: Global, i: usize) -> Result<Op, AllocError>
        requires { i < length self.now }
        ensures { IfOk result (λ op. op ≡ slice_index_or self.now i op) }
    {
        match take_op(alloc, Format::Third, self.records_from(i)) {
            Ok(Some((op, _))) => Ok(op),
            Ok(None) => unreachable!(),
            Err(CodecError::Memory) => Err(AllocError),
            Err(_) => unreachable!(),
        }
    }

    /// The operations from the n-th on, counted from 0. An error is out of memory (1). Linear in
    /// their records.
    pub fn copy_from(&self, alloc: Global, n: usize) -> Result<Vec<Op>, AllocError>
        requires { n ≤ length self.now }
        ensures { IfOk result (λ ops. ops.items ≡ drop n self.now) }
    {
        match take_ops(alloc, Format::Third, self.records_from(n)) {
            Ok(ops) => Ok(ops),
            Err(StreamError::Memory) => Err(AllocError),
            Err(StreamError::Stream) => unreachable!(),
        }
    }

    /// How many bytes the records take from the n-th on, counted from 0. Constant.
    pub fn length_from(&self, n: usize) -> usize
        requires { n ≤ length self.now }
        ensures { result ≡ stream_length (drop n self.now) }
    {
        self.records_from(n).len()
    }

    /// The records of the operations from the n-th on, counted from 0. Constant; takes no memory.
    pub(crate) fn records_from(&self, n: usize) -> &'a [u8]
        requires { n ≤ length self.now }
        ensures spelled_so { result.now ≡ spelled_all (drop n self.now) }
        ensures fits { AreOperations (drop n self.now) }
    {
        self.records.split_at(self.start(n)).1
    }

    /// Whether both are the same list. Takes no memory. Linear in the records: those of one list
    /// are the bytes of no other.
    pub fn is_same(&self, other: &OpSlice<'_>) -> bool
        ensures { IsTrue result ↔ (self.now ≡ other.now) }
    {
        self.records_from(0) == other.records_from(0)
    }

    /// How many bytes the first n records take.
    pub(crate) fn start(&self, n: usize) -> usize
        requires { n ≤ length self.now }
        ensures { result ≡ stream_length (take n self.now) }
    {
        if n == 0 { 0 } else { self.ends[n - 1] as usize }
    }
}
