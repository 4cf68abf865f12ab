//! The opening of a hub, and what a crash leaves of it.
ghost use Rattle.std.specs.Prelude.{◌≡◌, List, ℕ, IfOk, IfErr};
ghost use Rattle.root_slots.specs.Root.{version_of};
ghost use Rattle.op_model.specs.Machine.{opened};
ghost use Rattle.group_commit.specs.Commit.{IsLeft};
ghost use Rattle.group_commit.specs.Opening.{IsLoaded, IsLookedAt, HandsBack};
ghost use Rattle.recovery.specs.Faults.{IsFault, failures_of, is_of_sync};
ghost use Rattle.recovery.specs.Image.{IsImage};
ghost use Rattle.locked_replica.specs.Hub.{state_of};
ghost use Rattle.locked_replica.specs.Recovery.{HasAtLeast, Recovers};

use crate::hub::Hub;
use disk_trait::Disk;
use hub_parts::Parts;
use recovery::OpenFault;
use std::alloc::Global;

impl<D: Disk> Hub<D> {
    /// Opens the file of a disk: a sync, and then reads alone.
    ///
    /// Refuses as `recovery::open` does, with a device number, 42, 43, 45, 46, 47 or 1, and hands
    /// the disk back. Costs what `recovery::open` does, and a copy of the records.
    pub fn open(alloc: Global, disk: D) -> Result<Hub<D>, OpenFault<D>>
        // The hub is in the state right after opening the file's image.
        ensures image { D.tells disk → IfOk result (λ hub. IsImage (D.content disk)
            hub.replica.replica (version_of hub.store.current.body) hub.replica.list) }
        ensures opened { IfOk result (λ hub. state_of hub ≡ opened hub.replica.replica
            hub.replica.list (version_of hub.store.current.body)) }
        // The store is of the file's live root, and a crash leaves that file.
        ensures loaded { IfOk result (λ hub. IsLoaded D.DiskFacts disk hub.store
            hub.replica.replica hub.replica.list) }
        ensures fault { D.tells disk
            → IfErr result (λ fault. IsFault fault.cause (D.content disk)) }
        // It writes nothing, and tells a sync that failed from a read that did.
        ensures looks { IfOk result (λ hub. IsLookedAt D.DiskFacts 0 1 disk hub.store.disk) }
        ensures looks_refused { IfErr result (λ fault. HandsBack D.DiskFacts
            (failures_of fault.cause) (is_of_sync fault.cause) disk fault.disk) }
    {
        let Parts { locked, flusher } = hub_parts::open(alloc, disk)?;
        flusher.kept();
        Ok(Hub { locked, flusher })
    }

    /// Tells what the type keeps: every file that a crash now may leave has the image of the
    /// settled list; of a commit's where that is through, and of either one once its gate is
    /// written. So it has all that is settled. And it has the live root or the commit's, on the
    /// pages that contracts see. Costs nothing.
    pub fn survivors(&self)
        ensures image { D.tells self.now.store.disk → (file : List ℕ)
            → D.survives self.now.store.disk file → Recovers self.now file }
        ensures settled { D.tells self.now.store.disk → (file : List ℕ)
            → D.survives self.now.store.disk file
            → HasAtLeast self.now.replica.settled self.now.replica file }
        ensures root { D.tells self.now.store.disk → (file : List ℕ)
            → D.survives self.now.store.disk file
            → IsLeft self.now.store.phase self.now.store.current self.now.store.next file }
    {
        self.locked.kept();
        self.flusher.kept();
    }
}
