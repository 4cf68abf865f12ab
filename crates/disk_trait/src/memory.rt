//! A disk in memory, which tells all that the rules allow.
ghost use Rattle.std.specs.Prelude.{◌≡◌, ◌⊎◌, ◌+◌, ◌-◌, ◌<◌, ◌≤◌, ◌↔◌, List, ℕ, [], length, IsTrue};
ghost use Rattle.std.specs.Prelude.{IsOk, IfOk, IfErr, OnOk, OnErr, IsErrOf, vec_len, vec_capacity};

use crate::log::{Added, Log};
use crate::medium::{Fate, Medium};
use crate::{Disk, DiskError, DiskFacts};
use std::alloc::{AllocError, Global};

/// The most bytes that one call writes to a [`MemDisk`].
pub const MOST_WRITTEN: usize = 4096;

/// A disk in memory, which tells. A crash may leave any file of it that the rules allow.
///
/// A call fails where the number of calls that it was made for is used up. So does a write of more
/// than [`MOST_WRITTEN`] bytes, and one past the room that it was made for. What fails changes
/// nothing. The calls take no memory: a read and a write cost their bytes, a sync and a crash the
/// whole file.
#[derive(Drop)]
pub struct MemDisk {
    medium: Medium,
    calls_left: usize,
    log: Log<Medium>,
    ghost room_for_calls: { vec_len medium.unsettled + calls_left ≤ vec_capacity medium.unsettled },
}

impl MemDisk {
    ghost use Rattle.disk_trait.specs.MemDisk.{content_of, Survives, calls_of, room_of, numbers_of};
    ghost use Rattle.disk_trait.specs.MemDisk.{left_by};
    ghost use Rattle.disk_trait.specs.Past.{called};
    ghost use Rattle.disk_trait.specs.declared.error.DiskError.TheVariants.{ReadFailed};
    ghost use Rattle.disk_trait.specs.declared.error.DiskError.TheVariants.{WriteFailed};
    ghost use Rattle.disk_trait.specs.declared.error.DiskError.TheVariants.{SyncFailed, PastEnd};

    /// An empty disk for a file of at most `room` bytes and for `calls` calls. It takes all its
    /// memory at once, twice `room` bytes and 16 for each call, and refuses with `AllocError` where
    /// that isn't there.
    pub fn new(alloc: Global, room: usize, calls: usize) -> Result<MemDisk, AllocError>
        ensures empty { IfOk result (λ disk. content_of disk ≡ []) }
        ensures settled { IfOk result (λ disk. (c : List ℕ) → Survives disk c → c ≡ []) }
        ensures room { IfOk result (λ disk. room_of disk ≡ room) }
        ensures calls { IfOk result (λ disk. calls_of disk ≡ calls) }
        ensures numbers { IfOk result (λ disk. numbers_of disk ≡ (0, 0, 0, 0)) }
    {
        Ok(MemDisk {
            medium: Medium::new(alloc, room, calls)?,
            calls_left: calls,
            log: Log::new(),
        })
    }

    /// Cuts the power: each byte that no sync has settled meets this fate. The file is left with
    /// the greatest size written, or else with the settled one, and what is left of it is settled.
    /// A crash is no call.
    pub fn crash(&mut self, fate: Fate, grown: bool)
        ensures left { content_of self.new ≡ left_by fate grown self.old }
        ensures survived { Survives self.old (content_of self.new) }
        ensures settled { (c : List ℕ) → Survives self.new c → c ≡ content_of self.new }
        ensures room { room_of self.new ≡ room_of self.old }
        ensures calls { calls_of self.new ≡ calls_of self.old }
        ensures numbers { numbers_of self.new ≡ numbers_of self.old }
    {
        self.medium.crash(fate, grown);
    }

    /// Uses up a call, if there is one left.
    fn take_call(&mut self) -> bool
        ensures had { IsTrue result ↔ (0 < self.old.calls_left) }
        ensures calls { self.new.calls_left ≡ self.old.calls_left - 1 }
        ensures medium { self.new.medium ≡ self.old.medium }
        ensures log { self.new.log ≡ self.old.log }
    {
        let had = self.calls_left > 0;
        self.calls_left = self.calls_left.saturating_sub(1);
        had
    }

    /// Notes what a call adds, before the call changes the file.
    fn note(&mut self, added: &Added)
        ensures calls { self.new.calls_left ≡ self.old.calls_left }
        ensures medium { self.new.medium ≡ self.old.medium }
        ensures log { self.new.log
            ≡ called self.old.medium
            added.now.failures added.now.writes added.now.syncs self.old.log }
    {
        self.log = self.log.and(&self.medium, added);
    }

    /// What a read of `len` bytes at `pos` answers, which uses up a call.
    fn answer_to_read(&mut self, pos: u64, len: usize) -> Result<(), DiskError>
        ensures past_end { IsErrOf result PastEnd ↔ (length (content_of self.old) < pos + len) }
        ensures ok { IsOk result ↔ (pos + len ≤ length (content_of self.old))
            × (0 < calls_of self.old) }
        ensures error { IfErr result (λ e. (e ≡ ReadFailed) ⊎ (e ≡ PastEnd)) }
        ensures calls { self.new.calls_left ≡ self.old.calls_left - 1 }
        ensures medium { self.new.medium ≡ self.old.medium }
        ensures log { self.new.log ≡ self.old.log }
    {
        let had = self.take_call();
        let size = self.medium.len() as u64;
        if pos > size || len as u64 > size - pos {
            Err(DiskError::PastEnd)
        } else if had {
            Ok(())
        } else {
            Err(DiskError::ReadFailed)
        }
    }

    /// What a write of `len` bytes at `pos` answers, which uses up a call.
    fn answer_to_write(&mut self, pos: u64, len: usize) -> Result<(), DiskError>
        ensures past_end { IsErrOf result PastEnd ↔ (length (content_of self.old) < pos) }
        ensures ok { IsOk result ↔ (pos ≤ length (content_of self.old)) × (0 < calls_of self.old)
            × (len ≤ MOST_WRITTEN) × (pos + len ≤ room_of self.old) }
        ensures error { IfErr result (λ e. (e ≡ WriteFailed) ⊎ (e ≡ PastEnd)) }
        ensures calls { self.new.calls_left ≡ self.old.calls_left - 1 }
        ensures medium { self.new.medium ≡ self.old.medium }
        ensures log { self.new.log ≡ self.old.log }
    {
        let had = self.take_call();
        if pos > self.medium.len() as u64 {
            Err(DiskError::PastEnd)
        } else if had && len <= MOST_WRITTEN && len <= self.medium.room() - pos as usize {
            Ok(())
        } else {
            Err(DiskError::WriteFailed)
        }
    }
}

impl DiskFacts for MemDisk {
    ghost use Rattle.std.specs.Prelude.{length};
    ghost use Rattle.disk_trait.specs.MemDisk.{content_of, Survives, time_of, left_of};

    ghost tells = { λ _. Unit {0} };

    ghost content = { content_of };

    ghost survives = { Survives };

    ghost time = { time_of };

    ghost left_since = { left_of };

    ghost writes = { λ disk. disk.log.writes };

    ghost syncs = { λ disk. disk.log.syncs };

    ghost failures = { λ disk. disk.log.failures };
}

impl Disk for MemDisk {
    ghost use Rattle.std.proofs.Common.{inl};
    ghost use Rattle.disk_trait.specs.File.{Torn};
    ghost use Rattle.disk_trait.specs.Medium.{Leaves};
    ghost use Rattle.disk_trait.specs.MemDisk.{calls_of, content_of, room_of, Survives, UsesCall};
    ghost use Rattle.disk_trait.specs.Past.{left_only_now, left_since_earlier};
    ghost use Rattle.disk_trait.specs.Calls.{failed, begun, IsOneCall, Keeps, ReadsPart, Settles};
    ghost use Rattle.disk_trait.specs.Calls.{WritesOrRefuses};
    ghost use Rattle.disk_trait.specs.declared.error.DiskError.TheVariants.{ReadFailed};
    ghost use Rattle.disk_trait.specs.declared.error.DiskError.TheVariants.{WriteFailed};
    ghost use Rattle.disk_trait.specs.declared.error.DiskError.TheVariants.{SyncFailed, PastEnd};

    // Each call says what the trait's clauses say, and besides when it is done and that it uses up
    // a call. A write says that it tears in all ways.

    fn size(&mut self) -> Result<u64, DiskError>
        ensures uses { UsesCall result (0 < calls_of self.old) self.old self.new }
        ensures size { IfOk result (λ n. n ≡ length (content_of self.old)) }
        ensures keeps { Keeps ⟦<MemDisk as DiskFacts>⟧ self.old self.new }
        ensures call { IsOneCall ⟦<MemDisk as DiskFacts>⟧ (failed result) 0 0 self.old self.new }
        ensures error { IfErr result (λ e. e ≡ ReadFailed) }
    {
        let answer = if self.take_call() {
            Ok(self.medium.len() as u64)
        } else {
            Err(DiskError::ReadFailed)
        };
        self.note(&Added::by_look(&answer));
        answer
    }

    fn read_at(&mut self, pos: u64, bytes: &mut [u8]) -> Result<(), DiskError>
        ensures uses { UsesCall result
            ((pos + length bytes.old ≤ length (content_of self.old)) × (0 < calls_of self.old))
            self.old self.new }
        ensures read { ReadsPart ⟦<MemDisk as DiskFacts>⟧
            result pos (length bytes.old) bytes.new self.old }
        ensures keeps { Keeps ⟦<MemDisk as DiskFacts>⟧ self.old self.new }
        ensures call { IsOneCall ⟦<MemDisk as DiskFacts>⟧ (failed result) 0 0 self.old self.new }
        ensures error { IfErr result (λ e. (e ≡ ReadFailed) ⊎ (e ≡ PastEnd)) }
    {
        let answer = self.answer_to_read(pos, bytes.len());
        self.note(&Added::by_look(&answer));
        answer?;
        self.medium.read(pos as usize, bytes);
        Ok(())
    }

    fn write_at(&mut self, pos: u64, bytes: &[u8]) -> Result<(), DiskError>
        ensures uses { UsesCall result
            ((pos ≤ length (content_of self.old)) × (0 < calls_of self.old)
            × (length bytes.now ≤ MOST_WRITTEN) × (pos + length bytes.now ≤ room_of self.old))
            self.old self.new }
        ensures refused { OnErr result (Keeps ⟦<MemDisk as DiskFacts>⟧ self.old self.new) }
        ensures written { WritesOrRefuses ⟦<MemDisk as DiskFacts>⟧
            result pos bytes.now self.old self.new }
        ensures all_torn { OnOk result
            ((d c : List ℕ) → Survives self.old d → Torn pos (length bytes.now) d c
            → Survives self.new c) }
        ensures call { IsOneCall ⟦<MemDisk as DiskFacts>⟧
            (failed result) (begun result) 0 self.old self.new }
        ensures error { IfErr result (λ e. (e ≡ WriteFailed) ⊎ (e ≡ PastEnd)) }
    {
        let answer = self.answer_to_write(pos, bytes.len());
        self.note(&Added::by_write(&answer));
        answer?;
        self.medium.write(pos as usize, bytes);
        Ok(())
    }

    fn sync(&mut self) -> Result<(), DiskError>
        ensures uses { UsesCall result (0 < calls_of self.old) self.old self.new }
        ensures settled { OnOk result (Settles ⟦<MemDisk as DiskFacts>⟧ self.old self.new) }
        ensures unsettled { OnErr result (Keeps ⟦<MemDisk as DiskFacts>⟧ self.old self.new) }
        ensures call { IsOneCall ⟦<MemDisk as DiskFacts>⟧ (failed result) 0 1 self.old self.new }
        ensures error { IfErr result (λ e. e ≡ SyncFailed) }
    {
        let answer = if self.take_call() {
            Ok(())
        } else {
            Err(DiskError::SyncFailed)
        };
        self.note(&Added::by_sync(&answer));
        answer?;
        self.medium.settle();
        Ok(())
    }

    ghost lawful = { λ disk _. record {
      reads_survive = disk.medium.reads_survive;
      counts_now = λ t c le now. inl now;
      only_now = λ c left. left_only_now Leaves disk.medium disk.log c left;
      since_earlier = λ t u c le left. left_since_earlier Leaves disk.medium disk.log t u c le left;
    } };
}
