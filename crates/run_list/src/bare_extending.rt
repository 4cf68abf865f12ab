//! Lists that are put behind a list of runs.
ghost use Rattle.std.specs.Prelude.{◌≡◌, ◌<◌, ◌≤◌, [], ◌∷◌, ◌++◌, length, take, drop, slice_index_or, None, OnOk, OnErr};
ghost use Rattle.op_model.specs.declared.op.Op.{Op};
ghost use Rattle.run_list.specs.Runs.{last_behind};

use crate::bare_list::BareList;
use crate::bare_slice::BareSlice;
use std::alloc::AllocError;

impl BareList {
    /// Puts the operations of another list behind the others, where the last one here is the one
    /// before them there: so a run goes on here where it does there.
    pub(crate) fn copy_each(&mut self, ops: &BareSlice<'_>, n: usize) -> Result<(), AllocError>
        requires within { n ≤ length ops.now }
        requires last { last_behind None self.old ≡ last_behind None (take n ops.now) }
        ensures ok { OnOk result (self.new ≡ self.old ++ drop n ops.now) }
        ensures front { take (length self.old) self.new ≡ self.old }
    {
        for i in n..ops.len() {
            self.copy_one(ops, i)?;
        }
        Ok(())
    }

    /// Puts the i-th operation of another list behind the others, where the last one here is the
    /// one before it there.
    fn copy_one(&mut self, ops: &BareSlice<'_>, i: usize) -> Result<(), AllocError>
        requires within { i < length ops.now }
        requires last { last_behind None self.old ≡ last_behind None (take i ops.now) }
        ensures ok { OnOk result ((d : Op)
            → self.new ≡ self.old ++ slice_index_or ops.now i d ∷ []) }
        ensures err { OnErr result (self.new ≡ self.old) }
    {
        match ops.typed_mark(i) {
            Some(value) => {
                // For the proof: the operations keep their rules.
                ops.kept();
                self.type_on(value)?;
            }
            None => {
                let op = ops.get(i)?;
                self.begin_run(&op)?;
            }
        }
        Ok(())
    }
}
