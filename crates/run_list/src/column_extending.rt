//! Numbers of another column that are put behind those of one.
ghost use Rattle.std.specs.Prelude.{◌≡◌, ◌≤◌, ◌++◌, length, take, drop, OnOk, OnErr};

use crate::token_column::TokenColumn;
use std::alloc::AllocError;

impl TokenColumn {
    /// Puts the numbers of another column behind the others, from one place on up to another one:
    /// all of them, or none. An error is out of memory (1), and it is one too where there would be
    /// 2^32 of them. Linear in them, and a search by halves.
    pub(crate) fn extend_from(
        &mut self,
        other: &TokenColumn,
        from: usize,
        to: usize,
    ) -> Result<(), AllocError>
        requires order { from ≤ to }
        requires within { to ≤ length other.now }
        ensures ok { OnOk result (self.new ≡ self.old ++ drop from (take to other.now)) }
        ensures err { OnErr result (self.new ≡ self.old) }
    {
        let before = self.len();
        match self.copy_each(other, from, to) {
            Ok(()) => Ok(()),
            Err(refused) => {
                self.truncate(before);
                Err(refused)
            }
        }
    }

    /// Puts them behind the others, one by one.
    fn copy_each(&mut self, other: &TokenColumn, from: usize, to: usize) -> Result<(), AllocError>
        requires order { from ≤ to }
        requires within { to ≤ length other.now }
        ensures ok { OnOk result (self.new ≡ self.old ++ drop from (take to other.now)) }
        ensures front { take (length self.old) self.new ≡ self.old }
    {
        let mut changes = other.changes_before(from);
        for i in from..to {
            changes = other.changes_with(i, changes);
            self.push(other.number_with(i, changes))?;
        }
        Ok(())
    }
}
