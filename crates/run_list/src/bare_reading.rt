//! The operations of a list of runs, one by one.
ghost use Rattle.std.specs.Prelude.{◌≡◌, ◌<◌, ◌^◌, length, IfOk, slice_index_or};
ghost use Rattle.op_list.specs.Heads.{heads};
ghost use Rattle.change_codec.specs.Stream.{AreOperations};

use crate::bare_list::BareList;
use crate::finding::run_of;
use crate::typed::{head_at, typed_at};
use op_list::OpHead;
use op_model::Op;
use std::alloc::AllocError;

impl BareList {
    /// Tells what the type keeps. Costs nothing.
    pub(crate) fn kept(&self)
        ensures fits { AreOperations self.now }
        ensures few { length self.now < 2 ^ 32 }
    {
        // For the proof: with a field read, it knows what the type keeps.
        let _count = self.marks.len();
    }

    /// The i-th operation, counted from 0. An error is out of memory (1). A search by halves for
    /// its run, and linear in the record of that.
    pub(crate) fn get(&self, i: usize) -> Result<Op, AllocError>
        requires { i < length self.now }
        ensures { IfOk result (λ op. op ≡ slice_index_or self.now i op) }
    {
        let run = run_of(&self.starts, i);
        let start = self.starts[run] as usize;
        let first = self.firsts.as_slice().get(self.allocator(), run)?;
        if start == i {
            return Ok(first);
        }
        match char::from_u32(self.marks[i]) {
            Some(value) => {
                let op = typed_at(first, (i - start) as u64, value)?;
                Ok(op)
            }
            None => unreachable!(),
        }
    }

    /// The head of the i-th operation, counted from 0. A search by halves for its run; takes no
    /// memory.
    pub(crate) fn head(&self, i: usize) -> OpHead
        requires { i < length self.now }
        ensures { result ≡ slice_index_or (heads self.now) i result }
    {
        let run = run_of(&self.starts, i);
        let start = self.starts[run] as usize;
        let first = self.firsts.as_slice().head(run);
        if start == i {
            return first;
        }
        head_at(first, (i - start) as u64)
    }
}
