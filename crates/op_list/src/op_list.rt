//! A list of operations, held as records.
ghost use Rattle.std.specs.Prelude.{◌≡◌, ◌+◌, ◌<◌, ◌^◌, [], ◌∷◌, ◌++◌, length, take, OnOk, OnErr};
ghost use Rattle.op_model.specs.declared.op.Op.{Op as Operation};
ghost use Rattle.op_model.specs.Records.{stream_length};
ghost use Rattle.op_list.specs.Held.{IsRecord};

use crate::ends::push_ends;
use crate::op_slice::OpSlice;
use change_codec::put_ops;
use op_model::Op;
use std::alloc::{AllocError, Global};
use std::marker::Model;

/// A list of operations, held as their records, one after another, and where each one ends: four
/// bytes an operation beside its record. Contracts see the list.
#[derive(Debug, Drop)]
pub struct OpList {
    records: Vec<u8>,
    /// Where each record ends, in bytes from the beginning.
    ends: Vec<u32>,
}

impl Model for OpList {
    ghost use Rattle.std.specs.Prelude.{List};
    ghost use Rattle.op_model.specs.declared.op.Op.{Op};

    ghost Value = { List Op };

    ghost use Rattle.op_list.specs.Held.{held, IsHeld};

    ghost view = { λ l. held l.records.items l.ends.items };

    ghost invariant = { λ l. IsHeld l.records.items l.ends.items };
}

impl OpList {
    /// The empty list. Takes no memory.
    pub fn new(alloc: Global) -> OpList
        ensures { result ≡ [] }
    {
        OpList {
            records: Vec::new(alloc),
            ends: Vec::new(alloc),
        }
    }

    /// The operations. Constant.
    pub fn as_slice(&self) -> OpSlice<'_>
        ensures { result ≡ self.now }
    {
        OpSlice::new(&self.records, &self.ends)
    }

    /// How many operations. Constant.
    pub fn len(&self) -> usize
        ensures { result ≡ length self.now }
    {
        self.as_slice().len()
    }

    /// Where its memory comes from.
    pub fn allocator(&self) -> Global {
        *self.records.allocator()
    }

    /// Puts operations behind the others: all of them, or none. An error is out of memory (1).
    /// Linear in their records.
    pub fn append(&mut self, ops: &[Op]) -> Result<(), AllocError>
        requires { stream_length self.old + stream_length ops.now < 2 ^ 32 }
        ensures ok { OnOk result (self.new ≡ self.old ++ ops.now) }
        ensures err { OnErr result (self.new ≡ self.old) }
    {
        let start = self.records.len();
        self.ends.reserve(ops.len())?;
        put_ops(ops, &mut self.records)?;
        push_ends(start, ops, &mut self.ends);
        Ok(())
    }

    /// Puts the operation behind the others whose record these bytes are. An error is out of memory
    /// (1). Linear in the bytes, which are copied and not read.
    pub fn append_record(&mut self, bytes: &[u8]) -> Result<(), AllocError>
        requires one { (op : Operation) × IsRecord bytes.now op }
        requires few { stream_length self.old + length bytes.now < 2 ^ 32 }
        ensures ok { OnOk result ((op : Operation) → IsRecord bytes.now op
            → self.new ≡ self.old ++ op ∷ []) }
        ensures err { OnErr result (self.new ≡ self.old) }
    {
        let end = self.records.len() + bytes.len();
        self.ends.reserve(1)?;
        self.records.extend_from_slice(bytes)?;
        self.ends.push_reserved(end as u32);
        Ok(())
    }

    /// Makes room for `more` further operations, whose records take `bytes` bytes. An error is out
    /// of memory (1). Linear in the records where they move, else constant.
    pub fn reserve(&mut self, more: usize, bytes: usize) -> Result<(), AllocError>
        ensures { self.new ≡ self.old }
    {
        self.ends.reserve(more)?;
        self.records.reserve(bytes)
    }

    /// Keeps the first n operations, or all of them where they are fewer. Takes no memory.
    pub fn truncate(&mut self, n: usize)
        ensures { self.new ≡ take n self.old }
    {
        if n < self.len() {
            let end = self.as_slice().start(n);
            self.records.truncate(end);
            self.ends.truncate(n);
        }
    }
}
