//! Operations that are put behind a list of runs.
ghost use Rattle.std.specs.Prelude.{◌≡◌, ◌+◌, ◌<◌, ◌^◌, [], ◌∷◌, ◌++◌, length};
ghost use Rattle.std.specs.Prelude.{false, None, OnOk, OnErr, IsTrue};
ghost use Rattle.op_model.specs.declared.op.Op.{Op as Operation};
ghost use Rattle.op_model.specs.Records.{stream_length};
ghost use Rattle.op_list.specs.Held.{IsRecord};
ghost use Rattle.run_list.specs.Runs.{firsts_behind, goes_on as goes_on_of, last_behind, IsTypedBehind};

use crate::bare_list::BareList;
use crate::marks::{BEGINS, MOST_BYTES, MOST_OPERATIONS};
use change_codec::every_op_has_a_spelling;
use op_model::Op;
use std::alloc::AllocError;

impl BareList {
    /// Puts the operation behind the others that goes on with the run of the last one and types
    /// this character.
    pub(crate) fn type_on(&mut self, value: char) -> Result<(), AllocError>
        requires { (op : Operation) × IsTypedBehind self.old value op }
        ensures ok { OnOk result ((op : Operation) → IsTypedBehind self.old value op
            → self.new ≡ self.old ++ op ∷ []) }
        ensures err { OnErr result (self.new ≡ self.old) }
    {
        if self.marks.len() >= MOST_OPERATIONS {
            return Err(AllocError);
        }
        self.marks.push(value as u32)?;
        Ok(())
    }

    /// Puts an operation behind the others that begins a run.
    pub(crate) fn begin_run(&mut self, op: &Op) -> Result<(), AllocError>
        requires { goes_on_of (last_behind None self.old) op.now ≡ false }
        ensures ok { OnOk result (self.new ≡ self.old ++ op.now ∷ []) }
        ensures err { OnErr result (self.new ≡ self.old) }
    {
        every_op_has_a_spelling(op);
        if !self.has_room_for(op.record_length()) {
            return Err(AllocError);
        }
        let at = self.marks.len();
        self.marks.reserve(1)?;
        self.starts.reserve(1)?;
        self.firsts.append(std::slice::from_ref(op))?;
        self.starts.push_reserved(at as u32);
        self.marks.push_reserved(BEGINS);
        Ok(())
    }

    /// Puts the operation behind the others whose record these bytes are, and which begins a run.
    pub(crate) fn begin_record(&mut self, bytes: &[u8]) -> Result<(), AllocError>
        requires one { (op : Operation) × IsRecord bytes.now op }
        requires begins { (op : Operation) → IsRecord bytes.now op
            → goes_on_of (last_behind None self.old) op ≡ false }
        ensures ok { OnOk result ((op : Operation) → IsRecord bytes.now op
            → self.new ≡ self.old ++ op ∷ []) }
        ensures err { OnErr result (self.new ≡ self.old) }
    {
        if !self.has_room_for(bytes.len() as u64) {
            return Err(AllocError);
        }
        let at = self.marks.len();
        self.marks.reserve(1)?;
        self.starts.reserve(1)?;
        self.firsts.append_record(bytes)?;
        self.starts.push_reserved(at as u32);
        self.marks.push_reserved(BEGINS);
        Ok(())
    }

    /// Whether there is room for one more operation that begins a run, with a record of so many
    /// bytes.
    fn has_room_for(&self, bytes: u64) -> bool
        ensures few { IsTrue result → length self.now + 1 < 2 ^ 32 }
        ensures short { IsTrue result
            → stream_length (firsts_behind None self.now) + bytes < 2 ^ 32 }
    {
        if self.marks.len() >= MOST_OPERATIONS {
            return false;
        }
        let held = self.firsts.as_slice().length_from(0) as u64;
        held <= MOST_BYTES && bytes <= MOST_BYTES - held
    }
}
