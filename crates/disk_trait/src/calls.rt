//! The four calls of a disk.
ghost use Rattle.std.specs.Prelude.{◌≡◌, ◌⊎◌, ◌↔◌, length, IfOk, IfErr, OnOk, OnErr};
ghost use Rattle.disk_trait.specs.declared.error.DiskError.TheVariants.{ReadFailed, WriteFailed};
ghost use Rattle.disk_trait.specs.declared.error.DiskError.TheVariants.{SyncFailed, PastEnd};
ghost use Rattle.disk_trait.specs.Calls.{failed, begun, IsOneCall, Keeps, ReadsPart, Settles};
ghost use Rattle.disk_trait.specs.Calls.{WritesOrRefuses, IsLawful};

use crate::{DiskError, DiskFacts};

/// A disk with one file. What its clauses promise but the kinds of errors, they promise of a disk
/// that tells.
///
/// - Read back: a read gives the last bytes written (`read`, `written`).
/// - Torn write: after a crash, each byte of a range that was written since the last successful
///   sync may be anything, and so may each byte past the file's end at that sync. The size is
///   anything between the size at that sync and the greatest end written since (`torn`, a part of
///   `written`).
/// - Untouched rest: all other bytes are what they were (`torn`).
/// - Settled by sync: after a successful sync a crash leaves exactly what a read gives (`settled`).
/// - Failed call: a write that fails counts as a write of its range, and reads give some bytes
///   there, the same each time, until it is written again (`torn`). A sync that fails settles
///   nothing (`unsettled`).
/// - Sole writer: nobody else writes the file. What is known of a disk is a function of its value,
///   which changes in these calls alone.
pub trait Disk: DiskFacts {
    /// The size of the file in bytes. Refuses with 50 where the device failed.
    fn size(&mut self) -> Result<u64, DiskError>
        ensures size { Self.tells self.old → IfOk result (λ n. n ≡ length (Self.content self.old)) }
        ensures keeps { Self.tells self.old → Keeps Self.DiskFacts self.old self.new }
        ensures call { Self.tells self.old
            → IsOneCall Self.DiskFacts (failed result) 0 0 self.old self.new }
        ensures tells { Self.tells self.new ↔ Self.tells self.old }
        ensures error { IfErr result (λ e. e ≡ ReadFailed) };

    /// Fills `bytes` with the bytes of the file from offset `pos` on. Refuses with 53 exactly where
    /// they reach past the end, and with 50 where the device failed. After a refusal `bytes` holds
    /// anything.
    fn read_at(&mut self, pos: u64, bytes: &mut [u8]) -> Result<(), DiskError>
        ensures read { Self.tells self.old
            → ReadsPart Self.DiskFacts result pos (length bytes.old) bytes.new self.old }
        ensures keeps { Self.tells self.old → Keeps Self.DiskFacts self.old self.new }
        ensures call { Self.tells self.old
            → IsOneCall Self.DiskFacts (failed result) 0 0 self.old self.new }
        ensures tells { Self.tells self.new ↔ Self.tells self.old }
        ensures error { IfErr result (λ e. (e ≡ ReadFailed) ⊎ (e ≡ PastEnd)) };

    /// Writes `bytes` at offset `pos`, over what is there and past the end. Refuses with 53 exactly
    /// where it begins past the end, which changes nothing, and with 51 where the device failed.
    fn write_at(&mut self, pos: u64, bytes: &[u8]) -> Result<(), DiskError>
        ensures written { Self.tells self.old
            → WritesOrRefuses Self.DiskFacts result pos bytes.now self.old self.new }
        ensures call { Self.tells self.old
            → IsOneCall Self.DiskFacts (failed result) (begun result) 0 self.old self.new }
        ensures tells { Self.tells self.new ↔ Self.tells self.old }
        ensures error { IfErr result (λ e. (e ≡ WriteFailed) ⊎ (e ≡ PastEnd)) };

    /// Settles all that was written. Refuses with 52 where the device failed.
    fn sync(&mut self) -> Result<(), DiskError>
        ensures settled { Self.tells self.old
            → OnOk result (Settles Self.DiskFacts self.old self.new) }
        ensures unsettled { Self.tells self.old
            → OnErr result (Keeps Self.DiskFacts self.old self.new) }
        ensures call { Self.tells self.old
            → IsOneCall Self.DiskFacts (failed result) 0 1 self.old self.new }
        ensures tells { Self.tells self.new ↔ Self.tells self.old }
        ensures error { IfErr result (λ e. e ≡ SyncFailed) };

    /// What is so at every moment.
    ghost lawful: { (disk : Self) → Self.tells disk → IsLawful Self.DiskFacts disk };
}
