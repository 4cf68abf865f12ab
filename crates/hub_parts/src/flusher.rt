//! The part of a hub that commits.
ghost use Rattle.std.specs.Prelude.{◌≡◌};
ghost use Rattle.hub_parts.specs.Flusher.{IsFlusher, IsStoreStep};
ghost use Rattle.hub_parts.specs.Locked.{IsLocked, LockedHeld};
ghost use Rattle.hub_parts.specs.Fitting.{FitTogether, side_of};

use disk_trait::Disk;
use fixed_numbers::limits::MAX_PENDING;
use group_commit::{Phase, Store, StoreError};
use run_list::RunList;
use std::alloc::AllocError;
use std::marker::Model;

/// The part of a hub that commits: the store, and the list of operations that the commit has, or
/// else those that are committed, held as runs. It makes device calls without the lock, and is lent
/// the locked part only where the two meet. Contracts see the store, the list, and whether there is
/// a commit that isn't settled.
///
/// The type keeps that every file which a crash may leave has the live root or the one that the
/// commit makes, and that each of these has a beginning of the list.
#[derive(Drop)]
pub struct Flusher<D: Disk> {
    pub(crate) store: Store<D>,
    pub(crate) list: RunList,
    /// Whether there is a commit that isn't settled.
    pub(crate) due: bool,
}

impl<D: Disk> Model for Flusher<D> {
    ghost use Rattle.hub_parts.specs.Flusher.{FlusherHeld, IsFlusher};

    ghost Value = { FlusherHeld D };

    ghost view = { λ f. record { store = f.store; list = f.list; due = f.due } };

    ghost invariant = { λ f. IsFlusher D.DiskFacts (record {
      store = f.store;
      list = f.list;
      due = f.due;
    }) };
}

impl<D: Disk> Flusher<D> {
    /// Tells what the type keeps. Costs nothing.
    pub fn kept(&self)
        ensures { IsFlusher D.DiskFacts self.now }
    {
        // For the proof: with a field read, it knows what the type keeps.
        let _due = self.due;
    }

    /// Makes the next device call of the commit, and answers the phase whose call it was; `Idle`
    /// where no call is due. After the call of `Sync3` the commit is through. Takes no memory.
    ///
    /// Refuses with 44 where a device call failed before, and with 51 or 52 where the device fails
    /// in this one. One write of at most 4,096 bytes or one sync.
    pub fn device_step(&mut self) -> Result<Phase, StoreError>
        ensures step { IsStoreStep D.DiskFacts self.old.store result self.new.store }
        ensures same { self.new ≡ record self.old { store = self.new.store } }
        ensures fits { (locked : LockedHeld) → IsLocked locked
            → FitTogether locked (side_of self.old) → FitTogether locked (side_of self.new) }
    {
        self.store.step()
    }

    /// Makes room in the list for the most that a meeting takes, so that nothing of it moves under
    /// the lock. That is 1,048,576 bytes of pieces, of which a character of a run takes four, and
    /// each other operation its record. Room that stays empty is address space alone. An error is
    /// out of memory (1). Linear in the list where it moves, else constant.
    pub fn reserve(&mut self) -> Result<(), AllocError>
        ensures { self.new ≡ self.old }
    {
        let bytes = MAX_PENDING as usize;
        self.list.reserve(bytes / 4, bytes)
    }

    /// Whether a device call has failed, so that the file must be opened again. Takes no memory.
    pub fn has_failed(&self) -> bool
        ensures { result ≡ self.now.store.failed }
    {
        self.store.has_failed()
    }

    /// The phase of the commit under way, or `Idle`. Takes no memory.
    pub fn phase(&self) -> Phase
        ensures { result ≡ self.now.store.phase }
    {
        self.store.phase()
    }

    /// Whether there is a commit that isn't settled. Takes no memory.
    pub fn is_due(&self) -> bool
        ensures { result ≡ self.now.due }
    {
        self.due
    }

    /// The disk. What a commit under way has written stays there.
    pub fn into_disk(self) -> D
        ensures { result ≡ self.store.disk }
    {
        let Flusher { store, .. } = self;
        store.into_disk()
    }
}
