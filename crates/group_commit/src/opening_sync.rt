//! The sync with which a file is opened.
ghost use Rattle.std.specs.Prelude.{◌≡◌, ◌+◌, List, ℕ, IfErr, OnOk};
ghost use Rattle.group_commit.specs.Loading.{failed_in};
ghost use Rattle.group_commit.specs.Opening.{IsLookedAt};
ghost use Rattle.group_commit.specs.declared.open_fault.OpenError.TheVariants.{SyncFailed};

use crate::open_fault::OpenError;
use disk_trait::Disk;

/// Settles all that was written. It is refused only where the device failed (52).
pub(crate) fn sync_file<D: Disk>(disk: &mut D) -> Result<(), OpenError>
    ensures settled { D.tells disk.old
        → OnOk result ((c : List ℕ) → D.survives disk.new c → c ≡ D.content disk.new) }
    ensures looks { IsLookedAt D.DiskFacts (failed_in result) 1 disk.old disk.new }
    ensures once { D.tells disk.old → D.time disk.new ≡ D.time disk.old + 1 }
    ensures refused { IfErr result (λ e. e ≡ SyncFailed) }
{
    match disk.sync() {
        Ok(()) => Ok(()),
        Err(_) => Err(OpenError::SyncFailed),
    }
}
