//! Operations that are put behind a list of runs.
ghost use Rattle.std.specs.Prelude.{◌≡◌, [], ◌∷◌, ◌++◌, length, take};
ghost use Rattle.std.specs.Prelude.{true, false, None, OnOk, OnErr, IfOk};
ghost use Rattle.op_model.specs.declared.op.Op.{Op as Operation};
ghost use Rattle.op_list.specs.Held.{IsRecord};
ghost use Rattle.run_list.specs.Runs.{goes_on, last_behind};
ghost use Rattle.run_list.specs.Told.{bare_ops, continues, with_token, IsTypedOn};

use crate::run_list::RunList;
use crate::token_numbers::{bare_of, is_next_bare, number_of};
use change_codec::{CodecError, Format, every_op_has_a_spelling, record_token, take_op};
use op_ids::Token;
use op_model::Op;
use op_pieces::value_of;
use std::alloc::{AllocError, Global};

impl RunList {
    /// Puts operations behind the others: all of them, or none. An error is out of memory (1), and
    /// it is one too where the list would have 2^32 of them, or records of 2^32 bytes. Linear in
    /// them.
    pub fn append(&mut self, ops: &[Op]) -> Result<(), AllocError>
        ensures ok { OnOk result (self.new ≡ self.old ++ ops.now) }
        ensures err { OnErr result (self.new ≡ self.old) }
    {
        let before = self.len();
        match self.append_each(ops) {
            Ok(()) => Ok(()),
            Err(refused) => {
                self.truncate(before);
                Err(refused)
            }
        }
    }

    /// Puts operations behind the others, one by one.
    fn append_each(&mut self, ops: &[Op]) -> Result<(), AllocError>
        ensures ok { OnOk result (self.new ≡ self.old ++ ops.now) }
        ensures front { take (length self.old) self.new ≡ self.old }
    {
        for op in ops {
            self.push(op)?;
        }
        Ok(())
    }

    /// Puts an operation behind the others.
    pub(crate) fn push(&mut self, op: &Op) -> Result<(), AllocError>
        ensures ok { OnOk result (self.new ≡ self.old ++ op.now ∷ []) }
        ensures err { OnErr result (self.new ≡ self.old) }
    {
        let on = self.has_next(op)?;
        self.push_known(on, op)
    }

    /// Puts an operation behind the others, where it is known whether it goes on with the run of
    /// the last one.
    pub(crate) fn push_known(&mut self, on: bool, op: &Op) -> Result<(), AllocError>
        requires { on ≡ continues self.old op.now }
        ensures ok { OnOk result (self.new ≡ self.old ++ op.now ∷ []) }
        ensures err { OnErr result (self.new ≡ self.old) }
    {
        if on {
            self.go_on(op)
        } else {
            self.begin_run(op)
        }
    }

    /// Whether an operation goes on with the run of the last one. An error is out of memory (1).
    pub(crate) fn has_next(&self, op: &Op) -> Result<bool, AllocError>
        ensures { IfOk result (λ on. on ≡ continues self.now op.now) }
    {
        let len = self.bare.len();
        if len == 0 {
            return Ok(false);
        }
        let last = self.bare.as_slice().get(len - 1)?;
        Ok(is_next_bare(last, op))
    }

    /// Puts an operation behind the others that goes on with the run of the last one.
    fn go_on(&mut self, op: &Op) -> Result<(), AllocError>
        requires { continues self.old op.now ≡ true }
        ensures ok { OnOk result (self.new ≡ self.old ++ op.now ∷ []) }
        ensures err { OnErr result (self.new ≡ self.old) }
    {
        every_op_has_a_spelling(op);
        self.type_on(value_of(&op.body), op.token)?;
        Ok(())
    }

    /// Puts the operation behind the others that goes on with the run of the last one, types this
    /// character and has this token.
    pub(crate) fn type_on(&mut self, value: char, token: Option<Token>) -> Result<(), AllocError>
        requires { (op : Operation) × IsTypedOn self.old value token op }
        ensures ok { OnOk result ((op : Operation) → IsTypedOn self.old value token op
            → self.new ≡ self.old ++ op ∷ []) }
        ensures err { OnErr result (self.new ≡ self.old) }
    {
        let before = self.tokens.len();
        self.tokens.push(number_of(token))?;
        match self.bare.type_on(value) {
            Ok(()) => Ok(()),
            Err(refused) => {
                self.tokens.truncate(before);
                Err(refused)
            }
        }
    }

    /// Puts an operation behind the others that begins a run. If it has a token, it is copied
    /// without it.
    fn begin_run(&mut self, op: &Op) -> Result<(), AllocError>
        requires { continues self.old op.now ≡ false }
        ensures ok { OnOk result (self.new ≡ self.old ++ op.now ∷ []) }
        ensures err { OnErr result (self.new ≡ self.old) }
    {
        if op.token.is_none() {
            return self.begin(op, None);
        }
        let bare = bare_of(op.copy()?);
        self.begin(&bare, op.token)
    }

    /// Puts an operation behind the others that begins a run, with a token that it doesn't have
    /// yet.
    fn begin(&mut self, bare: &Op, token: Option<Token>) -> Result<(), AllocError>
        requires none { bare.now.token ≡ None }
        requires begins { goes_on (last_behind None (bare_ops self.old)) bare.now ≡ false }
        ensures ok { OnOk result (self.new ≡ self.old ++ with_token bare.now token ∷ []) }
        ensures err { OnErr result (self.new ≡ self.old) }
    {
        let before = self.tokens.len();
        self.tokens.push(number_of(token))?;
        match self.bare.begin_run(bare) {
            Ok(()) => {
                // For the proof: the operation keeps its rules.
                self.bare.kept();
                Ok(())
            }
            Err(refused) => {
                self.tokens.truncate(before);
                Err(refused)
            }
        }
    }

    /// Puts the operation behind the others whose record these bytes are, and which begins a run.
    /// If it has a token, it is read, else the bytes are copied.
    pub(crate) fn begin_record(&mut self, bytes: &[u8]) -> Result<(), AllocError>
        requires one { (op : Operation) × IsRecord bytes.now op }
        requires begins { (op : Operation) → IsRecord bytes.now op → continues self.old op ≡ false }
        ensures ok { OnOk result ((op : Operation) → IsRecord bytes.now op
            → self.new ≡ self.old ++ op ∷ []) }
        ensures err { OnErr result (self.new ≡ self.old) }
    {
        if record_token(bytes).is_none() {
            return self.begin_bytes(bytes);
        }
        let op = read_record(self.allocator(), bytes)?;
        let token = op.token;
        self.begin(&bare_of(op), token)?;
        Ok(())
    }

    /// Puts the operation behind the others whose record these bytes are, which begins a run, and
    /// has no token.
    fn begin_bytes(&mut self, bytes: &[u8]) -> Result<(), AllocError>
        requires one { (op : Operation) × IsRecord bytes.now op }
        requires none { (op : Operation) → IsRecord bytes.now op → op.token ≡ None }
        requires begins { (op : Operation) → IsRecord bytes.now op → continues self.old op ≡ false }
        ensures ok { OnOk result ((op : Operation) → IsRecord bytes.now op
            → self.new ≡ self.old ++ op ∷ []) }
        ensures err { OnErr result (self.new ≡ self.old) }
    {
        let before = self.tokens.len();
        self.tokens.push(0)?;
        match self.bare.begin_record(bytes) {
            Ok(()) => Ok(()),
            Err(refused) => {
                self.tokens.truncate(before);
                Err(refused)
            }
        }
    }
}

/// The operation of a record. An error is out of memory (1).
pub(crate) fn read_record(alloc: Global, bytes: &[u8]) -> Result<Op, AllocError>
    requires { (op : Operation) × IsRecord bytes.now op }
    ensures { IfOk result (λ op. IsRecord bytes.now op) }
{
    match take_op(alloc, Format::Third, bytes) {
        Ok(Some((op, _))) => Ok(op),
        Ok(None) => unreachable!(),
        Err(CodecError::Memory) => Err(AllocError),
        Err(_) => unreachable!(),
    }
}
