//! The operation behind the first ones of a list.
ghost use Rattle.std.specs.Prelude.{◌≡◌, ◌<◌, ◌^◌, suc, length, take, slice_index_or, IfOk, IfSome, MatchOption, Some, None};
ghost use Rattle.run_list.specs.NextOnes.{BeginsRun, GoesOnWith};
ghost use Rattle.run_list.specs.Reading.{runs_of};
ghost use Rattle.run_list.specs.Runs.{last_behind};

use crate::bare_list::BareList;
use crate::typed::typed_at;
use op_model::Op;
use std::alloc::AllocError;

impl BareList {
    /// The i-th operation, counted from 0, and how many runs are begun with it, where `runs` are
    /// begun before it; the one before it may be known, and is made into it where it goes on with
    /// its run. An error is out of memory (1).
    pub(crate) fn next(
        &self,
        i: usize,
        runs: usize,
        before: Option<Op>,
    ) -> Result<(Op, usize), AllocError>
        requires within { i < length self.now }
        requires runs { runs ≡ runs_of (take i self.now) }
        requires before { IfSome before (λ op. last_behind None (take i self.now) ≡ Some op) }
        ensures op { IfOk result (λ it. it.0 ≡ slice_index_or self.now i it.0) }
        ensures runs { IfOk result (λ it. it.1 ≡ runs_of (take (suc i) self.now)) }
    {
        match self.typed_mark(i) {
            Some(value) => {
                let op = self.typed(i, before, value)?;
                Ok((op, runs))
            }
            None => {
                let op = self.first(i, runs)?;
                Ok((op, runs + 1))
            }
        }
    }

    /// The character that the i-th operation types, counted from 0, if it goes on with its run.
    /// Constant.
    pub(crate) fn typed_mark(&self, i: usize) -> Option<char>
        requires { i < length self.now }
        ensures { MatchOption result (BeginsRun self.now i) (GoesOnWith self.now i) }
    {
        char::from_u32(self.marks[i])
    }

    /// The i-th operation, counted from 0, which begins a run, behind so many. An error is out of
    /// memory (1).
    fn first(&self, i: usize, runs: usize) -> Result<Op, AllocError>
        requires within { i < length self.now }
        requires begins { BeginsRun self.now i }
        requires runs { runs ≡ runs_of (take i self.now) }
        ensures op { IfOk result (λ op. op ≡ slice_index_or self.now i op) }
        ensures few { runs < 2 ^ 32 }
    {
        let op = self.firsts.as_slice().get(self.allocator(), runs)?;
        Ok(op)
    }

    /// The i-th operation, counted from 0, which goes on with its run and types this character. An
    /// error is out of memory (1).
    fn typed(&self, i: usize, before: Option<Op>, value: char) -> Result<Op, AllocError>
        requires within { i < length self.now }
        requires on { GoesOnWith self.now i value }
        requires before { IfSome before (λ op. last_behind None (take i self.now) ≡ Some op) }
        ensures { IfOk result (λ op. op ≡ slice_index_or self.now i op) }
    {
        // For the proof: the operations keep their rules.
        self.kept();
        match before {
            Some(op) => {
                let op = typed_at(op, 1, value)?;
                Ok(op)
            }
            None => self.get(i),
        }
    }
}
