//! A list of runs that is written from its beginning.
ghost use Rattle.std.specs.Prelude.{◌≡◌, ◌∷◌, [], ◌++◌, IfOk, IfSome, Ok, OnOk, OnErr, false, None};
ghost use Rattle.op_model.specs.declared.op.Op.{Op as Operation};
ghost use Rattle.change_codec.specs.Formats.{IsOf};
ghost use Rattle.change_codec.specs.Record.{BeginsWithOp};
ghost use Rattle.op_list.specs.Held.{IsRecord};
ghost use Rattle.op_pieces.specs.Pieces.{ops_of};
ghost use Rattle.run_list.specs.Told.{continues};

use crate::behind::is_right_behind;
use crate::next_record::{next_spelled, with_told_token};
use crate::putting::read_record;
use crate::run_list::RunList;
use crate::token_numbers::is_next_bare;
use change_codec::Format;
use op_model::Op;
use op_pieces::{Piece, value_of};
use std::alloc::{AllocError, Global};
use std::marker::Model;

/// Writes a list of runs from its beginning on, as a file has it: by records of operations and by
/// pieces. Contracts see the list.
#[derive(Debug, Drop)]
pub struct RunWriter {
    list: RunList,
    /// The last operation, if it is known.
    last: Option<Op>,
    /// Memory for its record.
    spelling: Vec<u8>,
}

impl Model for RunWriter {
    ghost use Rattle.std.specs.Prelude.{List};
    ghost use Rattle.op_model.specs.declared.op.Op.{Op};
    ghost use Rattle.run_list.specs.Writer.{KnowsLast};

    ghost Value = { List Op };

    ghost view = { λ w. w.list };

    ghost invariant = { λ w. KnowsLast w.list w.last };
}

impl RunWriter {
    /// A writer of the empty list. Takes no memory.
    pub fn new(alloc: Global) -> RunWriter
        ensures { result ≡ [] }
    {
        RunWriter {
            list: RunList::new(alloc),
            last: None,
            spelling: Vec::new(alloc),
        }
    }

    /// The list that was written. Constant.
    pub fn into_list(self) -> RunList
        ensures { result ≡ self }
    {
        let RunWriter { list, .. } = self;
        list
    }

    /// Puts the operation behind the others whose record the bytes begin with, if the format has it
    /// and it is typed right behind the last one, which has to be known, and gives how many bytes
    /// the record takes. `None` changes nothing and says nothing of the bytes. Refuses as
    /// `RunList::append` does. One pass over the record; takes memory for the list alone.
    pub fn type_record(&mut self, format: Format, bytes: &[u8]) -> Result<Option<usize>, AllocError>
        ensures typed { IfOk result (λ found. IfSome found (λ n. (op : Operation)
            × IsOf format op × BeginsWithOp bytes.now op n
            × (self.new ≡ self.old ++ op ∷ []))) }
        ensures none { result ≡ Ok None → self.new ≡ self.old }
        ensures err { OnErr result (self.new ≡ self.old) }
    {
        let Some(last) = self.last.take() else {
            return Ok(None);
        };
        let told = with_told_token(last, bytes);
        let Some(next) = next_spelled(told, format, bytes, &mut self.spelling)? else {
            return Ok(None);
        };
        self.list.type_on(value_of(&next.body), next.token)?;
        let len = next.record_length() as usize;
        self.last = Some(next);
        Ok(Some(len))
    }

    /// Puts the operation behind the others whose record these bytes are. Refuses as
    /// `RunList::append` does. Linear in the record, which is copied as it is unless the operation
    /// has a token or may go on with the run of the last one.
    pub fn put_record(&mut self, bytes: &[u8]) -> Result<(), AllocError>
        requires { (op : Operation) × IsRecord bytes.now op }
        ensures ok { OnOk result ((op : Operation) → IsRecord bytes.now op
            → self.new ≡ self.old ++ op ∷ []) }
        ensures err { OnErr result (self.new ≡ self.old) }
    {
        if self.may_go_on(bytes) {
            let op = read_record(self.list.allocator(), bytes)?;
            self.put(op)?;
        } else {
            self.last = None;
            self.list.begin_record(bytes)?;
        }
        Ok(())
    }

    /// Puts the operations of a piece behind the others: all of them, or none. Refuses as
    /// `RunList::append` does. Linear in the records of the last operation and of the piece's first
    /// one, and in the characters of the others.
    pub fn put_piece(&mut self, piece: &Piece) -> Result<(), AllocError>
        ensures ok { OnOk result (self.new ≡ self.old ++ ops_of piece.now) }
        ensures err { OnErr result (self.new ≡ self.old) }
    {
        self.last = None;
        self.list.append_piece(piece)
    }

    /// Whether the operation of a record may go on with the run of the last one: it does only where
    /// this says so.
    fn may_go_on(&self, bytes: &[u8]) -> bool
        requires { (op : Operation) × IsRecord bytes.now op }
        ensures { result ≡ false → (op : Operation) → IsRecord bytes.now op
            → continues self.now op ≡ false }
    {
        let len = self.list.len();
        if len == 0 {
            return false;
        }
        is_right_behind(self.list.head(len - 1), bytes)
    }

    /// Puts an operation behind the others.
    fn put(&mut self, op: Op) -> Result<(), AllocError>
        ensures ok { OnOk result (self.new ≡ self.old ++ op ∷ []) }
        ensures err { OnErr result (self.new ≡ self.old) }
    {
        let on = self.is_next(&op)?;
        self.list.push_known(on, &op)?;
        self.last = Some(op);
        Ok(())
    }

    /// Whether an operation goes on with the run of the last one, which isn't known then. An error
    /// is out of memory (1).
    fn is_next(&mut self, op: &Op) -> Result<bool, AllocError>
        ensures test { IfOk result (λ on. on ≡ continues self.old op.now) }
        ensures same { self.new ≡ self.old }
    {
        match self.last.take() {
            Some(last) => Ok(is_next_bare(last, op)),
            None => self.list.has_next(op),
        }
    }
}
