//! The size of a file.
ghost use Rattle.std.specs.Prelude.{◌≡◌, length, IfOk, IfErr};
ghost use Rattle.page_file.specs.DiskCalls.{IsLookedAt};
ghost use Rattle.root_slots.specs.Faults.{failed_in};
ghost use Rattle.root_slots.specs.declared.error.RootsError.TheVariants.{ReadFailed};

use crate::error::RootsError;
use disk_trait::Disk;

/// The size of the file. It is refused only where the device failed (50).
pub(crate) fn size_of<D: Disk>(disk: &mut D) -> Result<u64, RootsError>
    ensures size { D.tells disk.old → IfOk result (λ n. n ≡ length (D.content disk.old)) }
    ensures looks { IsLookedAt D.DiskFacts (failed_in result) 0 disk.old disk.new }
    ensures refused { IfErr result (λ e. e ≡ ReadFailed) }
{
    match disk.size() {
        Ok(size) => Ok(size),
        Err(_) => Err(RootsError::ReadFailed),
    }
}
