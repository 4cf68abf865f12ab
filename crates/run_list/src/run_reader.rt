//! The operations of a list of runs, in their order.
ghost use Rattle.std.specs.Prelude.{◌≡◌, ◌+◌, ◌-◌, ◌<◌, length, slice_index_or, OnOk};

use crate::following::Begun;
use crate::run_slice::RunSlice;
use op_model::Op;
use std::alloc::AllocError;
use std::marker::Model;

/// Reads a list in its order: each operation is made of the one before it. Contracts see the list,
/// and how many operations were read.
#[derive(Debug, Drop)]
pub struct RunReader<'a> {
    list: RunSlice<'a>,
    /// How many operations were read.
    at: usize,
    /// What these begin.
    begun: Begun,
    /// The last of them.
    op: Option<Op>,
}

impl<'a> Model for RunReader<'a> {
    ghost use Rattle.run_list.specs.Reader.{ReaderHeld, HasRead};

    ghost Value = { ReaderHeld };

    ghost view = { λ r. record { list = r.list; at = r.at } };

    ghost invariant = { λ r. HasRead r.list r.at r.begun r.op };
}

impl<'a> RunReader<'a> {
    /// A reader that has read nothing. Constant.
    pub(crate) fn new(list: RunSlice<'a>) -> RunReader<'a>
        ensures { result ≡ record { list = list.entry; at = 0 } }
    {
        RunReader {
            list,
            at: 0,
            begun: Begun {
                runs: 0,
                changes: 0,
            },
            op: None,
        }
    }

    /// Reads the next operation, in the memory of the one before where it goes on with its run. An
    /// error is out of memory (1), and then none was read. Constant, and for the first of a run
    /// linear in its record.
    pub fn read(&mut self) -> Result<(), AllocError>
        requires { self.old.at < length self.old.list }
        ensures ok { OnOk result (self.new ≡ record self.old { at = self.old.at + 1 }) }
        ensures list { self.new.list ≡ self.old.list }
    {
        // For the proof: there are no more operations than a `usize` counts.
        self.list.kept();
        let list = self.list.list();
        match list.next(self.at, self.begun, self.op.take()) {
            Ok((op, begun)) => {
                self.at += 1;
                self.begun = begun;
                self.op = Some(op);
                Ok(())
            }
            Err(refused) => {
                self.at = 0;
                self.begun = Begun {
                    runs: 0,
                    changes: 0,
                };
                Err(refused)
            }
        }
    }

    /// The operation that was read last. Constant.
    pub fn op(&self) -> &Op
        requires { 0 < self.now.at }
        ensures { result.now ≡ slice_index_or self.now.list (self.now.at - 1) result.now }
    {
        match &self.op {
            Some(op) => op,
            None => unreachable!(),
        }
    }
}
