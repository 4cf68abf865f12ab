//! A disk in memory: survivors, torn writes, syncs.
ghost use Rattle.std.specs.Prelude.{◌≡◌, ◌≢◌, ◌+◌, ◌<◌, List, ℕ, length, OnOk, IfOk, IfErr};
ghost use Rattle.disk_trait.specs.File.{overwritten, Torn};
ghost use Rattle.disk_trait.specs.Calls.{LeavesOnly};
ghost use Rattle.disk_trait.specs.declared.error.DiskError.TheVariants.{PastEnd};

use crate::test_disks::Call::{Read, Size, Sync, Write};
use crate::test_disks::Fact::{Answers, Ones};
use crate::test_disks::{Fact, PAGE, has_ones, hold, named, script};
use disk_trait::{Disk, DiskError, DiskFacts, Fate, FaultDisk, MemDisk};
use std::alloc::Global;
use std::test::Fail;

/// What a layer above can say of any disk, by the trait alone.
fn write_and_sync<D: Disk>(disk: &mut D, pos: u64, bytes: &[u8]) -> Result<(), DiskError>
    ensures settled { D.tells disk.old
        → OnOk result ((c : List ℕ) → D.survives disk.new c
        → c ≡ overwritten (D.content disk.old) pos bytes.now) }
    ensures moments { D.tells disk.old
        → OnOk result (LeavesOnly D.DiskFacts disk.old disk.new
        (λ c. (d : List ℕ) × D.survives disk.old d × Torn pos (length bytes.now) d c)) }
    ensures calls { D.tells disk.old → OnOk result (D.time disk.new ≡ D.time disk.old + 2) }
    ensures fault { D.tells disk.old
        → IfErr result (λ e. e ≢ PastEnd → D.failures disk.old < D.failures disk.new) }
{
    disk.write_at(pos, bytes)?;
    disk.sync()?;
    Ok(())
}

/// A layer above that keeps what it knows of its disk: a crash leaves what reads give.
struct Settled<D: Disk> {
    disk: D,
    ghost settled: { D.tells disk → (c : List ℕ) → D.survives disk c → c ≡ D.content disk },
}

fn settle<D: Disk>(mut disk: D) -> Result<Settled<D>, D>
    ensures same { IfOk result (λ it. D.tells disk → D.content it.disk ≡ D.content disk) }
{
    match disk.sync() {
        Ok(()) => Ok(Settled { disk }),
        Err(_) => Err(disk),
    }
}

/// A settled page of ones, with four bytes over its end that no sync has settled.
fn unsettled_page(alloc: Global) -> Result<MemDisk, Fail> {
    let mut disk = MemDisk::new(alloc, 3 * PAGE, 16)?;
    disk.write_at(0, &[1; PAGE])?;
    disk.sync()?;
    disk.write_at(4094, &[2, 3, 4, 5])?;
    Ok(disk)
}

/// The fate of unsettled bytes, whether the file keeps what it grew by, and what stands behind the
/// ones that are settled.
static FATES: [(Fate, bool, &[u8]); 6] = [
    (Fate::Old, true, &[1, 1, 0, 0]),
    (Fate::Old, false, &[1, 1]),
    (Fate::New, true, &[2, 3, 4, 5]),
    (Fate::New, false, &[2, 3]),
    (Fate::Fill(9), true, &[9, 9, 9, 9]),
    (Fate::Fill(9), false, &[9, 9]),
];

/// Whether a crash of that page's disk leaves these bytes behind the ones.
fn leaves(alloc: Global, fate: Fate, grown: bool, behind: &[u8]) -> Result<bool, Fail> {
    let mut disk = unsettled_page(alloc)?;
    disk.crash(fate, grown);
    has_ones(alloc, &mut disk, 4094, behind)
}

#[test]
fn a_crash_gives_unsettled_bytes_their_fate(rt: HostRuntime) -> Result<(), Fail> {
    for (fate, grown, behind) in &FATES {
        assert!(rt;
            leaves(rt.alloc(), *fate, *grown, behind)?,
            "{fate:?}, grown {grown}"
        );
    }
    Ok(())
}

/// The same page's disk after a sync and a crash.
fn synced_and_crashed(alloc: Global) -> Result<MemDisk, Fail> {
    let mut disk = unsettled_page(alloc)?;
    disk.sync()?;
    disk.crash(Fate::Fill(9), true);
    Ok(disk)
}

#[test]
fn a_sync_settles_what_was_written(rt: HostRuntime) -> Result<(), Fail> {
    let mut disk = synced_and_crashed(rt.alloc())?;
    hold(&rt, &mut disk, &[Ones(4094, &[2, 3, 4, 5])])
}

const PAST_THE_END: [Fact<'static>; 8] = [
    Answers(0, Write(0, 1, PAGE)),
    Answers(0, Read(4094, 2)),
    Answers(53, Read(4095, 2)),
    Answers(0, Read(4096, 0)),
    Answers(53, Read(u64::MAX, 2)),
    Answers(53, Write(4097, 1, 1)),
    Answers(0, Write(4096, 1, 1)),
    Fact::Size(4097),
];

const LIMITS: [Fact<'static>; 11] = [
    Answers(51, Write(0, 1, PAGE + 1)),
    Answers(0, Write(0, 1, PAGE)),
    Answers(51, Write(4095, 1, 3)),
    Answers(0, Write(4095, 1, 2)),
    Answers(0, Sync),
    Fact::Size(4097),
    Answers(50, Size),
    Answers(52, Sync),
    Answers(51, Write(0, 1, 1)),
    Answers(50, Read(0, 1)),
    Answers(53, Write(4098, 1, 1)),
];

/// What each case shows of a disk in memory for a file of so many bytes and for so many calls; and
/// what holds of it.
static CASES: [(&str, usize, usize, &[Fact<'static>]); 2] = [
    ("nothing is read past the end", 2 * PAGE, 8, &PAST_THE_END),
    ("memory has its limits", PAGE + 1, 6, &LIMITS),
];

#[test]
fn a_disk_in_memory_has_its_limits(rt: HostRuntime) -> Result<(), Fail> {
    for (name, room, calls, facts) in &CASES {
        let mut disk = MemDisk::new(rt.alloc(), *room, *calls)?;
        named(&rt, name, hold(&rt, &mut disk, facts))?;
    }
    Ok(())
}

/// Which call of the script fails, and what the calls answer.
static FAULTS: [(u64, [u8; 6]); 8] = [
    (0, [0, 0, 0, 0, 0, 0]),
    // Zeros stand where the second half would be, so the file has its page.
    (1, [51, 0, 0, 0, 0, 0]),
    (2, [0, 52, 0, 0, 0, 0]),
    (3, [0, 0, 51, 0, 0, 0]),
    (4, [0, 0, 0, 50, 0, 0]),
    (5, [0, 0, 0, 0, 50, 0]),
    (6, [0, 0, 0, 0, 0, 52]),
    (7, [0, 0, 0, 0, 0, 0]),
];

/// What the script answers where the n-th call fails.
fn answers_where_fails(alloc: Global, n: u64) -> Result<[u8; 6], Fail> {
    let mut disk = FaultDisk::new(MemDisk::new(alloc, 3 * PAGE, 16)?, n);
    Ok(script(&mut disk))
}

#[test]
fn the_nth_call_fails(rt: HostRuntime) -> Result<(), Fail> {
    for (n, answers) in &FAULTS {
        assert_eq!(rt; answers_where_fails(rt.alloc(), *n)?, *answers, "at {n}");
    }
    Ok(())
}

/// A settled page of ones, over whose end a write of five bytes failed.
fn half_written(alloc: Global) -> Result<MemDisk, Fail> {
    let mut memory = MemDisk::new(alloc, 3 * PAGE, 16)?;
    memory.write_at(0, &[1; PAGE])?;
    memory.sync()?;
    let mut disk = FaultDisk::new(memory, 1);
    match disk.write_at(4094, &[2, 3, 4, 5, 6]) {
        Err(DiskError::WriteFailed) => Ok(disk.into_inner()),
        _ => Err(Fail::from("the write didn't fail")),
    }
}

#[test]
fn a_failing_write_makes_half_and_unsettles_its_range(rt: HostRuntime) -> Result<(), Fail> {
    let mut memory = half_written(rt.alloc())?;
    hold(&rt, &mut memory, &[Ones(4094, &[2, 3, 0, 0, 0])])?;
    memory.crash(Fate::Fill(9), true);
    hold(&rt, &mut memory, &[Ones(4094, &[9, 9, 9, 9, 9])])
}

#[test]
fn a_call_past_the_end_uses_up_the_fault(rt: HostRuntime) -> Result<(), Fail> {
    let mut disk = FaultDisk::new(MemDisk::new(rt.alloc(), PAGE, 8)?, 1);
    hold(
        &rt,
        &mut disk,
        &[Answers(53, Write(1, 1, 1)), Answers(0, Write(0, 1, 1))],
    )
}

/// What a crash leaves of a disk that generic callers wrote and settled.
fn settled_and_crashed(alloc: Global) -> Result<MemDisk, Fail> {
    let mut disk = FaultDisk::new(MemDisk::new(alloc, PAGE, 8)?, 0);
    write_and_sync(&mut disk, 0, &[7, 8])?;
    disk.write_at(2, &[6])?;
    let Settled { disk } = settle(disk).ok().ok_or("the sync failed")?;
    let mut memory = disk.into_inner();
    memory.crash(Fate::Fill(9), true);
    Ok(memory)
}

#[test]
fn a_generic_caller_writes_and_syncs(rt: HostRuntime) -> Result<(), Fail> {
    let mut memory = settled_and_crashed(rt.alloc())?;
    hold(&rt, &mut memory, &[Ones(0, &[7, 8, 6])])
}

/// Refusals, with their numbers and words.
static REFUSALS: [(DiskError, u8, &str); 5] = [
    (DiskError::ReadFailed, 50, "read failed"),
    (DiskError::WriteFailed, 51, "write failed"),
    (DiskError::SyncFailed, 52, "sync failed"),
    (DiskError::PastEnd, 53, "past end"),
    (DiskError::OpenFailed, 54, "open failed"),
];

#[test]
fn each_refusal_has_its_words(rt: HostRuntime) -> Result<(), Fail> {
    for (error, number, words) in &REFUSALS {
        assert_eq!(rt; error.number(), *number);
        let printed = format!(in rt.alloc(); "{error}")?;
        assert_eq!(rt; printed.as_str(), *words);
    }
    Ok(())
}
