//! The operation behind the first ones of a list.
ghost use Rattle.std.specs.Prelude.{◌≡◌, ◌<◌, suc, length, take, slice_index_or, IfOk, IfSome, Some, None};
ghost use Rattle.run_list.specs.Runs.{last_behind};
ghost use Rattle.run_list.specs.Reader.{AreBegun};

use crate::run_list::RunList;
use crate::token_numbers::{bare_of_some, token_of};
use op_model::Op;
use std::alloc::AllocError;

/// What the first operations of a list begin.
#[derive(Clone, Copy, Debug)]
pub(crate) struct Begun {
    /// How many runs.
    pub(crate) runs: usize,
    /// How many changes of the token.
    pub(crate) changes: usize,
}

impl RunList {
    /// The i-th operation, counted from 0, and what is begun with it, where this is begun before
    /// it; the one before it may be known, and is made into it where it goes on with its run. An
    /// error is out of memory (1).
    pub(crate) fn next(
        &self,
        i: usize,
        begun: Begun,
        before: Option<Op>,
    ) -> Result<(Op, Begun), AllocError>
        requires within { i < length self.now }
        requires begun { AreBegun (take i self.now) begun }
        requires before { IfSome before (λ op. last_behind None (take i self.now) ≡ Some op) }
        ensures op { IfOk result (λ it. it.0 ≡ slice_index_or self.now i it.0) }
        ensures begun { IfOk result (λ it. AreBegun (take (suc i) self.now) it.1) }
    {
        let (mut op, runs) = self.bare.next(i, begun.runs, bare_of_some(before))?;
        let changes = self.tokens.changes_with(i, begun.changes);
        op.token = token_of(self.tokens.number_with(i, changes));
        Ok((op, Begun { runs, changes }))
    }
}
