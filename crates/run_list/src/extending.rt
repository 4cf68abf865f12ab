//! Lists and pieces that are put behind a list of runs.
ghost use Rattle.std.specs.Prelude.{◌≡◌, ◌≤◌, ◌++◌, length, take, drop, None, OnOk, OnErr};
ghost use Rattle.op_pieces.specs.Pieces.{ops_of};
ghost use Rattle.run_list.specs.Runs.{last_behind};
ghost use Rattle.run_list.specs.Told.{bare_ops};

use crate::run_list::RunList;
use crate::run_slice::RunSlice;
use op_pieces::Piece;
use piece_codec::every_piece_has_a_spelling;
use std::alloc::AllocError;

impl RunList {
    /// Puts the operations of another list behind the others, from its n-th on, counted from 0: all
    /// of them, or none. Refuses as `append` does. Of one that goes on with its run the character
    /// is copied, each other one is read as `RunSlice::get` does.
    pub fn extend_from(&mut self, ops: &RunSlice<'_>, n: usize) -> Result<(), AllocError>
        requires { n ≤ length ops.now }
        ensures ok { OnOk result (self.new ≡ self.old ++ drop n ops.now) }
        ensures err { OnErr result (self.new ≡ self.old) }
    {
        let before = self.len();
        match self.extend_each(ops, n) {
            Ok(()) => Ok(()),
            Err(refused) => {
                self.truncate(before);
                Err(refused)
            }
        }
    }

    /// Puts the operations of another list behind the others, the first of them by itself.
    fn extend_each(&mut self, ops: &RunSlice<'_>, n: usize) -> Result<(), AllocError>
        requires { n ≤ length ops.now }
        ensures ok { OnOk result (self.new ≡ self.old ++ drop n ops.now) }
        ensures front { take (length self.old) self.new ≡ self.old }
    {
        if n == ops.len() {
            return Ok(());
        }
        let op = ops.get(n)?;
        self.push(&op)?;
        self.copy_each(ops, n + 1)
    }

    /// Puts the operations of another list behind the others, where the last one here is the one
    /// before them there, but for its token: so a run goes on here where it does there.
    fn copy_each(&mut self, ops: &RunSlice<'_>, n: usize) -> Result<(), AllocError>
        requires within { n ≤ length ops.now }
        requires last { last_behind None (bare_ops self.old)
            ≡ last_behind None (take n (bare_ops ops.now)) }
        ensures ok { OnOk result (self.new ≡ self.old ++ drop n ops.now) }
        ensures err { OnErr result (self.new ≡ self.old) }
    {
        // For the proof: the operations keep their rules.
        ops.kept();
        let before = self.tokens.len();
        self.tokens.extend_from(&ops.list().tokens, n, ops.len())?;
        match self.bare.copy_each(&ops.bare(), n) {
            Ok(()) => Ok(()),
            Err(refused) => {
                self.bare.truncate(before);
                self.tokens.truncate(before);
                Err(refused)
            }
        }
    }

    /// Puts the operations of a piece behind the others: all of them, or none. Refuses as `append`
    /// does. Linear in the record of its first operation, and in the characters of the others.
    pub fn append_piece(&mut self, piece: &Piece) -> Result<(), AllocError>
        ensures ok { OnOk result (self.new ≡ self.old ++ ops_of piece.now) }
        ensures err { OnErr result (self.new ≡ self.old) }
    {
        let before = self.len();
        match self.type_piece(piece) {
            Ok(()) => Ok(()),
            Err(refused) => {
                self.truncate(before);
                Err(refused)
            }
        }
    }

    /// Puts the operations of a piece behind the others, one by one.
    fn type_piece(&mut self, piece: &Piece) -> Result<(), AllocError>
        ensures ok { OnOk result (self.new ≡ self.old ++ ops_of piece.now) }
        ensures front { take (length self.old) self.new ≡ self.old }
    {
        every_piece_has_a_spelling(piece);
        self.push(piece.first())?;
        for value in piece.others() {
            self.type_on(*value, piece.first().token)?;
        }
        Ok(())
    }
}
