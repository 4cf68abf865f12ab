//! What the tests ask of any disk.
use disk_trait::{Disk, DiskError};
use std::alloc::{AllocError, Global};
use std::io::Eprint;
use std::test::Fail;

pub(crate) const PAGE: usize = 4096;

/// A call of a disk.
#[derive(Clone, Copy)]
pub(crate) enum Call {
    /// From a place on so many bytes of this value are written.
    Write(u64, u8, usize),
    /// From a place on so many bytes are read.
    Read(u64, usize),
    Sync,
    Size,
}

/// What holds of a disk, one row after another.
#[derive(Clone, Copy)]
pub(crate) enum Fact<'a> {
    /// A call answers this: 0, or the number of its refusal.
    Answers(u8, Call),
    /// The calls of the short script answer so.
    Script([u8; 6]),
    /// How long the file is.
    Size(u64),
    /// The file is so many ones, and these bytes behind them.
    Ones(usize, &'a [u8]),
}

/// The file as the disk reads it.
fn file_of<D: Disk>(alloc: Global, disk: &mut D) -> Result<Vec<u8>, Fail> {
    let size = disk.size()?;
    let mut file = Vec::from_elem(alloc, 0, usize::try_from(size)?)?;
    disk.read_at(0, &mut file)?;
    Ok(file)
}

/// A file of `count` ones, and these bytes behind them.
fn ones(alloc: Global, count: usize, behind: &[u8]) -> Result<Vec<u8>, AllocError> {
    let mut file = Vec::from_elem(alloc, 1, count)?;
    file.extend_from_slice(behind)?;
    Ok(file)
}

/// Whether the file is so many ones, and these bytes behind them.
pub(crate) fn has_ones<D: Disk>(
    alloc: Global,
    disk: &mut D,
    count: usize,
    behind: &[u8],
) -> Result<bool, Fail> {
    let due = ones(alloc, count, behind)?;
    Ok(file_of(alloc, disk)? == due)
}

/// What each call of a short script answers: 0, or the number of its refusal.
pub(crate) fn script<D: Disk>(disk: &mut D) -> [u8; 6] {
    let mut bytes = [0; 4];
    [
        number_of(disk.write_at(0, &[1; PAGE])),
        number_of(disk.sync()),
        number_of(disk.write_at(4094, &[2, 3, 4, 5, 6])),
        number_of(disk.size()),
        number_of(disk.read_at(4092, &mut bytes)),
        number_of(disk.sync()),
    ]
}

pub(crate) fn number_of<T: Drop>(answer: Result<T, DiskError>) -> u8 {
    match answer {
        Ok(_) => 0,
        Err(error) => error.number(),
    }
}

/// What a call answers: 0, or the number of its refusal.
fn answer<D: Disk>(alloc: Global, disk: &mut D, call: Call) -> Result<u8, Fail> {
    match call {
        Call::Write(pos, byte, count) => {
            let bytes = Vec::from_elem(alloc, byte, count)?;
            Ok(number_of(disk.write_at(pos, &bytes)))
        }
        Call::Read(pos, count) => {
            let mut bytes = Vec::from_elem(alloc, 0, count)?;
            Ok(number_of(disk.read_at(pos, &mut bytes)))
        }
        Call::Sync => Ok(number_of(disk.sync())),
        Call::Size => Ok(number_of(disk.size())),
    }
}

/// Whether a fact holds of a disk; makes its calls.
pub(crate) fn holds<D: Disk>(alloc: Global, disk: &mut D, fact: Fact<'_>) -> Result<bool, Fail> {
    match fact {
        Fact::Answers(number, call) => Ok(answer(alloc, disk, call)? == number),
        Fact::Script(due) => Ok(script(disk) == due),
        Fact::Size(due) => Ok(disk.size() == Ok(due)),
        Fact::Ones(count, behind) => has_ones(alloc, disk, count, behind),
    }
}

/// Tells which row is wrong, counted from 0, if it doesn't hold or ends in an error.
pub(crate) fn judged(rt: &impl Eprint, row: usize, holds: Result<bool, Fail>) -> Result<(), Fail> {
    match holds {
        Ok(true) => Ok(()),
        Ok(false) => Err(Fail::new(format_args!("row {row} doesn't hold"))),
        Err(fail) => {
            let _ = eprintln!(rt; "row {row} ends in an error");
            Err(fail)
        }
    }
}

/// What a case came to; one that fails is named.
pub(crate) fn named(rt: &impl Eprint, name: &str, outcome: Result<(), Fail>) -> Result<(), Fail> {
    if outcome.is_err() {
        let _ = eprintln!(rt; "{name}");
    }
    outcome
}

/// Goes through these rows on a disk.
pub(crate) fn hold<D: Disk>(
    rt: &(impl Eprint + AllocGlobal),
    disk: &mut D,
    rows: &[Fact<'_>],
) -> Result<(), Fail> {
    for (number, fact) in rows.iter().enumerate() {
        judged(rt, number, holds(rt.alloc(), disk, *fact))?;
    }
    Ok(())
}
