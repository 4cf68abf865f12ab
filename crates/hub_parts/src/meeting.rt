//! The meetings of the two parts.
ghost use Rattle.std.specs.Prelude.{◌≡◌, ◌+◌, ◌≤◌, false, length, drop};
ghost use Rattle.std.specs.Prelude.{IfOk, IfErr, OnOk, OnErr};
ghost use Rattle.root_slots.specs.Root.{count_of};
ghost use Rattle.group_commit.specs.declared.error.StoreError.TheVariants.{Memory};
ghost use Rattle.hub_parts.specs.Locked.{has_commit};
ghost use Rattle.hub_parts.specs.Fitting.{FitTogether, side_of};
ghost use Rattle.hub_parts.specs.Meeting.{due_without, BeginsCommit, CanCommit};
ghost use Rattle.hub_parts.specs.Meeting.{IsMet, LeavesBoth, Meets};

use crate::flusher::Flusher;
use crate::locked::Locked;
use crate::met::Met;
use disk_trait::Disk;
use group_commit::StoreError;
use run_list::RunSlice;

/// How often a begin that finds no memory is made, in a row, until its commit is given up.
pub const BEGIN_TRIES: u32 = 1_000;

impl<D: Disk> Flusher<D> {
    /// Meets the locked part. It makes no device call. In the order of test:
    ///
    /// - where the device failed, that is told there, and the answer is 44;
    /// - where just one of the two has a commit, which is never so of two that fit, it is 8;
    /// - where there is one whose device calls are all made, it is settled, without memory; another
    ///   one is answered with 8;
    /// - where nothing waits, the answer is `Nothing`;
    /// - else a commit begins of all that waits. Where the store has no room (7) or a growth was
    ///   refused (1), both parts are as before.
    ///
    /// Costs the bytes of the pieces that wait and of the pages that the commit writes, and a copy
    /// of each operation that waits. Nothing else of either list is read, copied or spelled; where
    /// `reserve` made room, nothing moves.
    pub fn meet(&mut self, locked: &mut Locked) -> Result<Met, StoreError>
        ensures met { Meets D.DiskFacts locked.old self.old result locked.new self.new }
        ensures fits { FitTogether locked.old (side_of self.old)
            → FitTogether locked.new (side_of self.new) }
    {
        if self.store.has_failed() {
            locked.tell_failure();
            return Err(StoreError::Failed);
        }
        if self.due != locked.has_commit() {
            return Err(StoreError::Busy);
        }
        if !self.due {
            return self.begin(locked);
        }
        if !self.store.phase().is_idle() {
            return Err(StoreError::Busy);
        }
        locked.kept();
        self.due = false;
        Ok(Met::Settled(locked.settle()))
    }

    /// Begins a commit of all that waits, where there is no commit and the device works.
    fn begin(&mut self, locked: &mut Locked) -> Result<Met, StoreError>
        requires works { self.old.store.failed ≡ false }
        requires rests { self.old.due ≡ false }
        requires settled { has_commit locked.old ≡ false }
        ensures answer { IsMet (due_without locked.old self.old) result }
        ensures leaves { LeavesBoth D.DiskFacts locked.old self.old result locked.new self.new }
        ensures fits { FitTogether locked.old (side_of self.old)
            → FitTogether locked.new (side_of self.new) }
    {
        locked.kept();
        let list = locked.list();
        let begun = locked.begun();
        let count = (list.len() - begun) as u64;
        if count == 0 {
            return Ok(Met::Nothing);
        }
        if !self.store.has_room(count, locked.waiting_singles()) {
            return Err(StoreError::Limit);
        }
        let length = self.begin_commit(&list, begun, &locked.waiting)?;
        locked.take_all();
        Ok(Met::Begun(length))
    }

    /// Begins a commit of the operations of a list from the n-th on, counted from 0, which the
    /// pieces spell, and answers the length of the list that it commits. It is refused when out of
    /// memory alone, and changes nothing then.
    fn begin_commit(
        &mut self,
        list: &RunSlice<'_>,
        n: usize,
        pieces: &[u8],
    ) -> Result<u64, StoreError>
        requires within { n ≤ length list.now }
        requires can { CanCommit self.old (drop n list.now) pieces.now }
        ensures length { IfOk result (λ long.
            long ≡ count_of self.old.store.current.body + length (drop n list.now)) }
        ensures taken { OnOk result
            (BeginsCommit D.DiskFacts self.old (drop n list.now) pieces.now self.new) }
        ensures refused { IfErr result (λ error. error ≡ Memory) }
        ensures same { OnErr result (self.new ≡ self.old) }
    {
        let count = (list.len() - n) as u64;
        let before = self.list.len();
        self.list.extend_from(list, n)?;
        match self.store.begin_records(pieces, count) {
            Ok(Some(length)) => {
                self.due = true;
                Ok(length)
            }
            Ok(None) => unreachable!(),
            Err(error) => {
                self.list.truncate(before);
                Err(error)
            }
        }
    }
}
