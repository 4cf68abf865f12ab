//! The opening of a hub's file anew.
ghost use Rattle.std.specs.Prelude.{◌≡◌, ◌⊎◌, IfOk, IfErr};
ghost use Rattle.fixed_numbers.specs.declared.refusals.TheConstants.{MEMORY};
ghost use Rattle.group_commit.specs.Opening.{IsLookedAt, HandsBack};
ghost use Rattle.recovery.specs.Faults.{number_of, failures_of, is_of_sync};
ghost use Rattle.locked_replica.specs.Reopening.{IsReopened};

use crate::hub::Hub;
use disk_trait::Disk;
use recovery::OpenFault;
use std::alloc::Global;

impl<D: Disk> Hub<D> {
    /// Opens the file anew as it reads now, also where the device failed: a hub that goes on. What
    /// was applied and isn't in the live root is gone, as after a crash.
    ///
    /// Refuses with 1, or with 50 or 52 where the device fails, and hands the disk back: its file
    /// can be opened again. Costs what `Hub::open` does.
    pub fn reopen(self, alloc: Global) -> Result<Hub<D>, OpenFault<D>>
        ensures crash { D.tells self.store.disk
            → IfOk result (λ hub. IsReopened D.DiskFacts self hub) }
        ensures fault { D.tells self.store.disk → IfErr result
            (λ fault. (number_of fault.cause ≡ MEMORY) ⊎ (failures_of fault.cause ≡ 1)) }
        // It writes nothing, and tells a sync that failed from a read that did.
        ensures looks { IfOk result
            (λ hub. IsLookedAt D.DiskFacts 0 1 self.store.disk hub.store.disk) }
        ensures looks_refused { IfErr result (λ fault. HandsBack D.DiskFacts
            (failures_of fault.cause) (is_of_sync fault.cause) self.store.disk fault.disk) }
    {
        self.survivors();
        Hub::open(alloc, self.into_disk())
    }
}
