//! A disk whose n-th call fails, over another.
ghost use Rattle.std.specs.Prelude.{◌≡◌, ◌⊎◌, ◌+◌, ◌-◌, ◌^◌, ◌<◌, ◌≤◌, ◌↔◌, length, IsTrue, IsErr};
ghost use Rattle.std.specs.Prelude.{IfOk, IfErr, OnOk, OnErr};
ghost use Rattle.disk_trait.specs.declared.error.DiskError.TheVariants.{WriteFailed, PastEnd};
ghost use Rattle.disk_trait.specs.Calls.{Keeps, Tears, WritesOrRefuses};
ghost use Rattle.disk_trait.specs.Fault.{extended, padded, HalfWrites};

use crate::log::{Added, Log};
use crate::{Disk, DiskError, DiskFacts};

/// How many bytes are written again at once.
const PIECE: usize = 4096;

/// A disk of which one call fails, over another. Its time is the number of its own calls. Any other
/// call is that call of the disk below.
///
/// A call that reads past the end, or a write that begins past it, answers so also in its turn, and
/// uses up the fault. A `size` or a `sync` that fails makes no call below, and a `read_at` that
/// fails makes its own. A write that fails makes more of them: it writes the first half of its
/// bytes, rounded down, and then the rest of its range again as it reads, with zeros past the end,
/// so that its whole range is unsettled. That takes one call, and three more for each 4,096 bytes
/// of the rest.
#[derive(Drop)]
pub struct FaultDisk<D: Disk> {
    disk: D,
    calls_to_fault: u64,
    log: Log<D>,
}

impl<D: Disk> FaultDisk<D> {
    ghost use Rattle.disk_trait.specs.FaultDisk.{disk_of, calls_to_fault, numbers_of};

    /// A disk over `disk` whose `n`-th call fails, counted from 1. Where `n` is 0 none does.
    pub fn new(disk: D, n: u64) -> FaultDisk<D>
        ensures disk { disk_of result ≡ disk }
        ensures fault { calls_to_fault result ≡ n }
        ensures numbers { numbers_of result ≡ (0, 0, 0, 0) }
    {
        FaultDisk {
            disk,
            calls_to_fault: n,
            log: Log::new(),
        }
    }

    /// The disk below.
    pub fn into_inner(self) -> D
        ensures { result ≡ disk_of self }
    {
        let FaultDisk {
            disk,
            calls_to_fault: _,
            log: _,
        } = self;
        disk
    }

    /// Counts a call down, and says whether it is the one that fails.
    fn fails_now(&mut self) -> bool
        ensures fails { IsTrue result ↔ (calls_to_fault self.old ≡ 1) }
        ensures counted { self.new.calls_to_fault ≡ self.old.calls_to_fault - 1 }
        ensures disk { self.new.disk ≡ self.old.disk }
        ensures log { self.new.log ≡ self.old.log }
    {
        let fails = self.calls_to_fault == 1;
        self.calls_to_fault = self.calls_to_fault.saturating_sub(1);
        fails
    }
}

impl<D: Disk> DiskFacts for FaultDisk<D> {
    ghost use Rattle.std.specs.Prelude.{length};
    ghost use Rattle.disk_trait.specs.Past.{LeftSince};

    ghost tells = { λ it. D.tells it.disk };

    ghost content = { λ it. D.content it.disk };

    ghost survives = { λ it. D.survives it.disk };

    ghost time = { λ it. length it.log.found };

    ghost left_since = { λ it. LeftSince D.survives it.disk it.log };

    ghost writes = { λ it. it.log.writes };

    ghost syncs = { λ it. it.log.syncs };

    ghost failures = { λ it. it.log.failures };
}

impl<D: Disk> Disk for FaultDisk<D> {
    ghost use Rattle.std.proofs.Common.{inl};
    ghost use Rattle.disk_trait.specs.FaultDisk.{disk_of, calls_to_fault, TakesTurn};
    ghost use Rattle.disk_trait.specs.Past.{left_only_now, left_since_earlier};
    ghost use Rattle.disk_trait.specs.Calls.{failed, begun, IsOneCall, Keeps, Settles};
    ghost use Rattle.disk_trait.specs.Calls.{ReadsPart, WritesOrRefuses};
    ghost use Rattle.disk_trait.specs.declared.error.DiskError.TheVariants.{ReadFailed};
    ghost use Rattle.disk_trait.specs.declared.error.DiskError.TheVariants.{WriteFailed};
    ghost use Rattle.disk_trait.specs.declared.error.DiskError.TheVariants.{SyncFailed, PastEnd};

    // Each call says what the trait's clauses say, and besides when it fails and when it passes to
    // the disk below.

    fn size(&mut self) -> Result<u64, DiskError>
        ensures turn { TakesTurn D.DiskFacts (IsErr result) (failed result) 0 0 self.old self.new }
        ensures size { D.tells (disk_of self.old)
            → IfOk result (λ n. n ≡ length (D.content (disk_of self.old))) }
        ensures keeps { D.tells (disk_of self.old)
            → Keeps ⟦<FaultDisk<D> as DiskFacts>⟧ self.old self.new }
        ensures call { D.tells (disk_of self.old)
            → IsOneCall ⟦<FaultDisk<D> as DiskFacts>⟧ (failed result) 0 0 self.old self.new }
        ensures tells { D.tells (disk_of self.new) ↔ D.tells (disk_of self.old) }
        ensures error { IfErr result (λ e. e ≡ ReadFailed) }
    {
        self.log = self.log.begin(&self.disk);
        let answer = if self.fails_now() {
            Err(DiskError::ReadFailed)
        } else {
            self.disk.size()
        };
        self.log = self.log.end(&Added::by_look(&answer));
        answer
    }

    fn read_at(&mut self, pos: u64, bytes: &mut [u8]) -> Result<(), DiskError>
        ensures turn { TakesTurn D.DiskFacts (IsErr result) (failed result) 0 0 self.old self.new }
        ensures read { D.tells (disk_of self.old)
            → ReadsPart ⟦<FaultDisk<D> as DiskFacts>⟧
            result pos (length bytes.old) bytes.new self.old }
        ensures keeps { D.tells (disk_of self.old)
            → Keeps ⟦<FaultDisk<D> as DiskFacts>⟧ self.old self.new }
        ensures call { D.tells (disk_of self.old)
            → IsOneCall ⟦<FaultDisk<D> as DiskFacts>⟧ (failed result) 0 0 self.old self.new }
        ensures tells { D.tells (disk_of self.new) ↔ D.tells (disk_of self.old) }
        ensures error { IfErr result (λ e. (e ≡ ReadFailed) ⊎ (e ≡ PastEnd)) }
    {
        self.log = self.log.begin(&self.disk);
        let fails = self.fails_now();
        let mut answer = self.disk.read_at(pos, bytes);
        if fails && answer.is_ok() {
            answer = Err(DiskError::ReadFailed);
        }
        self.log = self.log.end(&Added::by_look(&answer));
        answer
    }

    fn write_at(&mut self, pos: u64, bytes: &[u8]) -> Result<(), DiskError>
        ensures turn { TakesTurn D.DiskFacts (IsErr result)
            (failed result) (begun result) 0 self.old self.new }
        ensures half { D.tells (disk_of self.old) → calls_to_fault self.old ≡ 1
            → HalfWrites D.DiskFacts pos bytes.now result (disk_of self.old) (disk_of self.new) }
        ensures written { D.tells (disk_of self.old)
            → WritesOrRefuses ⟦<FaultDisk<D> as DiskFacts>⟧
            result pos bytes.now self.old self.new }
        ensures call { D.tells (disk_of self.old)
            → IsOneCall ⟦<FaultDisk<D> as DiskFacts>⟧
            (failed result) (begun result) 0 self.old self.new }
        ensures tells { D.tells (disk_of self.new) ↔ D.tells (disk_of self.old) }
        ensures error { IfErr result (λ e. (e ≡ WriteFailed) ⊎ (e ≡ PastEnd)) }
    {
        self.log = self.log.begin(&self.disk);
        let answer = if self.fails_now() {
            tear(&mut self.disk, pos, bytes)
        } else {
            self.disk.write_at(pos, bytes)
        };
        self.log = self.log.end(&Added::by_write(&answer));
        answer
    }

    fn sync(&mut self) -> Result<(), DiskError>
        ensures turn { TakesTurn D.DiskFacts (IsErr result) (failed result) 0 1 self.old self.new }
        ensures settled { D.tells (disk_of self.old)
            → OnOk result (Settles ⟦<FaultDisk<D> as DiskFacts>⟧ self.old self.new) }
        ensures unsettled { D.tells (disk_of self.old)
            → OnErr result (Keeps ⟦<FaultDisk<D> as DiskFacts>⟧ self.old self.new) }
        ensures call { D.tells (disk_of self.old)
            → IsOneCall ⟦<FaultDisk<D> as DiskFacts>⟧ (failed result) 0 1 self.old self.new }
        ensures tells { D.tells (disk_of self.new) ↔ D.tells (disk_of self.old) }
        ensures error { IfErr result (λ e. e ≡ SyncFailed) }
    {
        self.log = self.log.begin(&self.disk);
        let answer = if self.fails_now() {
            Err(DiskError::SyncFailed)
        } else {
            self.disk.sync()
        };
        self.log = self.log.end(&Added::by_sync(&answer));
        answer
    }

    ghost lawful = { λ it told. record {
      reads_survive = (D.Disk.lawful it.disk told).reads_survive;
      counts_now = λ t c le now. inl now;
      only_now = λ c left. left_only_now D.survives it.disk it.log c left;
      since_earlier = λ t u c le left. left_since_earlier D.survives it.disk it.log t u c le left;
    } };
}

/// Writes the first half of the bytes, and then the rest of their range again as it reads, with
/// zeros past the end, so that the whole range is unsettled.
fn tear<D: Disk>(disk: &mut D, pos: u64, bytes: &[u8]) -> Result<(), DiskError>
    ensures fails { IsErr result }
    ensures half { D.tells disk.old
        → HalfWrites D.DiskFacts pos bytes.now result disk.old disk.new }
    ensures torn { D.tells disk.old
        → WritesOrRefuses D.DiskFacts result pos bytes.now disk.old disk.new }
    ensures tells { D.tells disk.new ↔ D.tells disk.old }
    ensures error { IfErr result (λ e. (e ≡ WriteFailed) ⊎ (e ≡ PastEnd)) }
{
    let half = bytes.len() / 2;
    disk.write_at(pos, &bytes[..half])?;
    if pos.checked_add(bytes.len() as u64).is_some() {
        let _ = rewrite(disk, pos + half as u64, bytes.len() - half);
    }
    Err(DiskError::WriteFailed)
}

/// Writes a range again as it reads, with zeros past the end.
fn rewrite<D: Disk>(disk: &mut D, pos: u64, len: usize) -> Result<(), DiskError>
    requires { pos + len < 2 ^ 64 }
    ensures torn { D.tells disk.old → Tears D.DiskFacts pos len disk.old disk.new }
    ensures same { D.tells disk.old → pos ≤ length (D.content disk.old)
        → OnOk result (D.content disk.new ≡ extended (D.content disk.old) (pos + len)) }
    ensures failed { D.tells disk.old → pos ≤ length (D.content disk.old) → IsErr result
        → D.failures disk.old < D.failures disk.new }
    ensures tells { D.tells disk.new ↔ D.tells disk.old }
{
    let mut done = 0;
    'pieces: while done < len {
        let count = (len - done).min(PIECE);
        rewrite_piece(disk, pos + done as u64, count)?;
        done += count;
    }
    Ok(())
}

fn rewrite_piece<D: Disk>(disk: &mut D, pos: u64, len: usize) -> Result<(), DiskError>
    requires { len ≤ PIECE }
    ensures torn { D.tells disk.old → Tears D.DiskFacts pos len disk.old disk.new }
    ensures same { D.tells disk.old → pos ≤ length (D.content disk.old)
        → OnOk result (D.content disk.new ≡ extended (D.content disk.old) (pos + len)) }
    ensures kept { D.tells disk.old → OnOk result (D.failures disk.new ≡ D.failures disk.old) }
    ensures failed { D.tells disk.old → pos ≤ length (D.content disk.old) → IsErr result
        → D.failures disk.old < D.failures disk.new }
    ensures tells { D.tells disk.new ↔ D.tells disk.old }
{
    let mut buffer = [0; PIECE];
    let piece = &mut buffer[..len];
    read_padded(disk, pos, piece)?;
    disk.write_at(pos, piece)?;
    Ok(())
}

/// Reads with zeros past the end.
fn read_padded<D: Disk>(disk: &mut D, pos: u64, bytes: &mut [u8]) -> Result<(), DiskError>
    ensures read { D.tells disk.old
        → OnOk result (bytes.new ≡ padded (D.content disk.old) pos (length bytes.old)) }
    ensures keeps { D.tells disk.old → Keeps D.DiskFacts disk.old disk.new }
    ensures kept { D.tells disk.old → OnOk result (D.failures disk.new ≡ D.failures disk.old) }
    ensures failed { D.tells disk.old → pos ≤ length (D.content disk.old) → IsErr result
        → D.failures disk.old < D.failures disk.new }
    ensures tells { D.tells disk.new ↔ D.tells disk.old }
{
    let size = disk.size()?;
    let there = size.saturating_sub(pos).min(bytes.len() as u64) as usize;
    bytes.fill(0);
    disk.read_at(pos, &mut bytes[..there])?;
    Ok(())
}
