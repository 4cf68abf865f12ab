//! The operations of a list of runs, one by one.
ghost use Rattle.std.specs.Prelude.{◌≡◌, ◌<◌, ◌^◌, length, IfOk, slice_index_or, map};
ghost use Rattle.op_list.specs.Heads.{heads};
ghost use Rattle.change_codec.specs.Stream.{AreOperations};

use crate::run_list::RunList;
use crate::token_numbers::token_of;
use op_ids::Token;
use op_list::OpHead;
use op_model::Op;
use std::alloc::AllocError;

impl RunList {
    /// Tells what the type keeps. Costs nothing.
    pub(crate) fn kept(&self)
        ensures fits { AreOperations self.now }
        ensures few { length self.now < 2 ^ 32 }
    {
        self.bare.kept();
    }

    /// The i-th operation, counted from 0. An error is out of memory (1). A search by halves for
    /// its run and one for its token, and linear in the record of the run.
    pub(crate) fn get(&self, i: usize) -> Result<Op, AllocError>
        requires { i < length self.now }
        ensures { IfOk result (λ op. op ≡ slice_index_or self.now i op) }
    {
        let mut op = self.bare.as_slice().get(i)?;
        op.token = token_of(self.tokens.get(i));
        Ok(op)
    }

    /// The head of the i-th operation, counted from 0. A search by halves for its run; takes no
    /// memory.
    pub(crate) fn head(&self, i: usize) -> OpHead
        requires { i < length self.now }
        ensures { result ≡ slice_index_or (heads self.now) i result }
    {
        self.bare.as_slice().head(i)
    }

    /// The token of the i-th operation, counted from 0, if it has one. A search by halves; takes no
    /// memory.
    pub(crate) fn token(&self, i: usize) -> Option<Token>
        requires { i < length self.now }
        ensures { result ≡ slice_index_or (map (λ op. op.token) self.now) i result }
    {
        token_of(self.tokens.get(i))
    }
}
