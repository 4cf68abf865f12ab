//! The device calls of a commit, one a step.
ghost use Rattle.std.specs.Prelude.{◌≡◌, ◌+◌, ◌*◌, ◌<◌, ◌≤◌, false, length, get_or};
ghost use Rattle.disk_trait.specs.File.{part};
ghost use Rattle.group_commit.specs.Held.{behind_pages};
ghost use Rattle.group_commit.specs.Step.{MakesCall, IsStoreStep};
ghost use Rattle.group_commit.specs.declared.phase.Phase.TheVariants.{Pages, Close, Sync1};
ghost use Rattle.group_commit.specs.declared.phase.Phase.TheVariants.{Body, Sync2, Gate, Sync3};

use crate::device_calls::{put_page, sync};
use crate::error::StoreError;
use crate::phase::Phase;
use crate::store::Store;
use disk_trait::Disk;
use fixed_numbers::sizes::{PAGE_SIZE, TABLE_ENTRIES};
use std::mem::swap;

/// The phase behind `written` pages of `pages`.
fn behind(written: usize, pages: usize, stale_open: bool) -> Phase
    ensures { result ≡ behind_pages written pages stale_open }
{
    if written < pages {
        Phase::Pages(written)
    } else if stale_open {
        Phase::Close
    } else {
        Phase::Sync1
    }
}

/// The k-th of these numbers.
fn number_at(numbers: &[u32], k: usize) -> u32
    requires within { k < length numbers.now }
    ensures { result ≡ get_or numbers.now k 0 }
{
    numbers[k]
}

/// The bytes of the k-th of these pages.
fn bytes_at(pages: &[u8], k: usize) -> &[u8]
    requires within { PAGE_SIZE * k + PAGE_SIZE ≤ length pages.now }
    ensures bytes { result.now ≡ part pages.now (PAGE_SIZE * k) PAGE_SIZE }
    ensures whole { length result.now ≡ PAGE_SIZE }
{
    &pages[PAGE_SIZE * k..PAGE_SIZE * k + PAGE_SIZE]
}

impl<D: Disk> Store<D> {
    /// The write of the k-th new page.
    fn page(&mut self, k: usize) -> Result<Phase, StoreError>
        requires phase { self.old.phase ≡ Pages k }
        requires works { self.old.failed ≡ false }
        ensures call { MakesCall D.DiskFacts (Pages k) result self.old self.new }
    {
        if let Err(error) = put_page(
            &mut self.pages,
            &mut self.disk,
            number_at(&self.numbers, k),
            bytes_at(&self.fresh, k),
        ) {
            self.failed = true;
            return Err(error);
        }
        self.phase = behind(k + 1, self.numbers.len(), self.roots.is_stale_open());
        Ok(Phase::Pages(k))
    }

    /// The write of 0 into the stale gate. It may be torn, so the commit goes on behind it in any
    /// case.
    fn close(&mut self) -> Result<Phase, StoreError>
        requires phase { self.old.phase ≡ Close }
        requires works { self.old.failed ≡ false }
        ensures call { MakesCall D.DiskFacts Close result self.old self.new }
    {
        self.phase = Phase::Sync1;
        if let Err(_) = self.roots.close_stale(&mut self.disk) {
            self.failed = true;
            return Err(StoreError::WriteFailed);
        }
        Ok(Phase::Close)
    }

    /// The sync of the new pages and the closed gate. Without it a crash could find the new root
    /// without the pages that it names, or a half of its body behind a gate that is still open.
    fn sync1(&mut self) -> Result<Phase, StoreError>
        requires phase { self.old.phase ≡ Sync1 }
        requires works { self.old.failed ≡ false }
        ensures call { MakesCall D.DiskFacts Sync1 result self.old self.new }
    {
        if let Err(error) = sync(&mut self.disk) {
            self.failed = true;
            return Err(error);
        }
        self.phase = Phase::Body;
        Ok(Phase::Sync1)
    }

    /// The write of the new root's body into the stale slot.
    fn body(&mut self) -> Result<Phase, StoreError>
        requires phase { self.old.phase ≡ Body }
        requires works { self.old.failed ≡ false }
        ensures call { MakesCall D.DiskFacts Body result self.old self.new }
    {
        self.phase = Phase::Sync2;
        if let Err(_) = self.roots.put_body(&mut self.disk, self.next.body()) {
            self.failed = true;
            return Err(StoreError::WriteFailed);
        }
        Ok(Phase::Body)
    }

    /// The sync of that body. Without it a crash could find the gate open over a body that isn't
    /// there or is torn.
    fn sync2(&mut self) -> Result<Phase, StoreError>
        requires phase { self.old.phase ≡ Sync2 }
        requires works { self.old.failed ≡ false }
        ensures call { MakesCall D.DiskFacts Sync2 result self.old self.new }
    {
        if let Err(error) = sync(&mut self.disk) {
            self.failed = true;
            return Err(error);
        }
        self.phase = Phase::Gate;
        Ok(Phase::Sync2)
    }

    /// The write of 1 into that slot's gate. From here on a crash may leave either root.
    fn gate(&mut self) -> Result<Phase, StoreError>
        requires phase { self.old.phase ≡ Gate }
        requires works { self.old.failed ≡ false }
        ensures call { MakesCall D.DiskFacts Gate result self.old self.new }
    {
        self.phase = Phase::Sync3;
        if let Err(_) = self.roots.open_gate(&mut self.disk) {
            self.failed = true;
            return Err(StoreError::WriteFailed);
        }
        Ok(Phase::Gate)
    }

    /// The sync of the gate. The slots change places. Without it an edit would be acknowledged that
    /// a crash forgets, and the next commit would write over pages to which a crash goes back.
    fn sync3(&mut self) -> Result<Phase, StoreError>
        requires phase { self.old.phase ≡ Sync3 }
        requires works { self.old.failed ≡ false }
        ensures call { MakesCall D.DiskFacts Sync3 result self.old self.new }
    {
        if let Err(error) = sync(&mut self.disk) {
            self.failed = true;
            return Err(error);
        }
        self.phase = Phase::Idle;
        self.roots.change_places();
        self.pages
            .adopt(self.kept / TABLE_ENTRIES, self.kept, self.new_data);
        swap(&mut self.current, &mut self.next);
        swap(&mut self.stream, &mut self.next_stream);
        self.anew = Vec::new(*self.anew.allocator());
        Ok(Phase::Sync3)
    }

    /// Makes the device call of the commit's phase, and answers which phase that was. `Idle` makes
    /// none. Takes no memory.
    ///
    /// Refuses with 44 where a call failed before, and with 51 or 52 where the device fails in this
    /// one: after that the store has to be opened again.
    ///
    /// One write of at most 4,096 bytes or one sync.
    pub fn step(&mut self) -> Result<Phase, StoreError>
        // One device call, after which the commit goes on or the store has failed.
        ensures step { IsStoreStep D.DiskFacts self.old result self.new }
    {
        if self.failed {
            return Err(StoreError::Failed);
        }
        match self.phase {
            Phase::Idle => Ok(Phase::Idle),
            Phase::Pages(k) => self.page(k),
            Phase::Close => self.close(),
            Phase::Sync1 => self.sync1(),
            Phase::Body => self.body(),
            Phase::Sync2 => self.sync2(),
            Phase::Gate => self.gate(),
            Phase::Sync3 => self.sync3(),
        }
    }
}
