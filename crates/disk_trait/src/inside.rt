//! Reads and writes that begin inside the file, so that only the device can refuse them.
ghost use Rattle.std.specs.Prelude.{◌≡◌, ◌+◌, ◌≤◌, ◌↔◌, length, IfErr, OnOk};
ghost use Rattle.disk_trait.specs.File.{part};
ghost use Rattle.disk_trait.specs.Looks.{OnlyLooks};
ghost use Rattle.disk_trait.specs.Writing.{Writes, failures_in};
ghost use Rattle.disk_trait.specs.declared.error.DiskError.TheVariants.{ReadFailed, WriteFailed};

use crate::{Disk, DiskError};

/// Fills `bytes` with the bytes of the file from an offset on, all of which lie in it. One device
/// call. Of a disk that tells it is refused only where the device failed (50).
pub fn read_inside<D: Disk>(disk: &mut D, at: u64, bytes: &mut [u8]) -> Result<(), DiskError>
    requires inside { D.tells disk.old → at + length bytes.old ≤ length (D.content disk.old) }
    ensures read { D.tells disk.old
        → OnOk result (bytes.new ≡ part (D.content disk.old) at (length bytes.old)) }
    ensures looks { D.tells disk.old
        → OnlyLooks D.DiskFacts (failures_in result) 0 disk.old disk.new }
    ensures tells { D.tells disk.new ↔ D.tells disk.old }
    ensures refused { IfErr result (λ e. e ≡ ReadFailed) }
{
    match disk.read_at(at, bytes) {
        Ok(()) => Ok(()),
        Err(_) => Err(DiskError::ReadFailed),
    }
}

/// Writes `bytes` at an offset in the file or at its end. One device call. Of a disk that tells it
/// is refused only where the device failed (51).
pub fn write_inside<D: Disk>(disk: &mut D, at: u64, bytes: &[u8]) -> Result<(), DiskError>
    requires inside { D.tells disk.old → at ≤ length (D.content disk.old) }
    ensures writes { D.tells disk.old
        → Writes D.DiskFacts result at bytes.now disk.old disk.new }
    ensures tells { D.tells disk.new ↔ D.tells disk.old }
    ensures refused { IfErr result (λ e. e ≡ WriteFailed) }
{
    match disk.write_at(at, bytes) {
        Ok(()) => Ok(()),
        Err(_) => Err(DiskError::WriteFailed),
    }
}
