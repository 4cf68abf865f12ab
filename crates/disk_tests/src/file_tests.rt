//! The calls of `Disk` over real files.
use crate::file_tests::Row::{Discards, First, Holds, LetsGo, Refuses, Removes, Renames, Resizes};
use crate::file_tests::Way::{Create, Open, OpenToRead};
use crate::test_disks::Call::{Read, Size, Sync, Write};
use crate::test_disks::Fact::{Answers, Ones, Script};
use crate::test_disks::{Fact, holds, judged, named, number_of};
use disk_trait::{DiskError, FileDisk};
use std::fs::OpenOptions;
use std::test::Fail;
use std::{fs, io};

/// How a disk comes to be.
#[derive(Clone, Copy)]
enum Way {
    Create,
    Open,
    OpenToRead,
}

/// What is done to disks and files, or holds of them. The first disk is that which is held longest.
#[derive(Clone, Copy)]
enum Row<'a> {
    /// A disk over the file of a path is held from here on.
    Holds(Way, &'a str),
    /// A disk over the file of a path is refused with this number; or let go at once, at 0.
    Refuses(u8, Way, &'a str),
    /// This holds of the first disk.
    First(Fact<'a>),
    /// The first disk is let go.
    LetsGo,
    /// The first disk is discarded, over the file of this path.
    Discards(&'a str),
    /// A file is removed.
    Removes(&'a str),
    /// A file gets another name.
    Renames(&'a str, &'a str),
    /// A file is cut, or lengthened.
    Resizes(&'a str, u64),
}

fn opened(rt: &HostRuntime, way: Way, path: &str) -> Result<FileDisk, DiskError> {
    match way {
        Create => FileDisk::create(rt, path),
        Open => FileDisk::open(rt, path),
        OpenToRead => FileDisk::open_to_read(rt, path),
    }
}

/// The first disk, which is held no longer.
fn first(disks: &mut Vec<FileDisk>) -> Result<FileDisk, Fail> {
    if disks.is_empty() {
        return Err(Fail::from("no disk"));
    }
    Ok(disks.remove(0))
}

fn resize(rt: &HostRuntime, path: &str, len: u64) -> io::Result<()> {
    let file = OpenOptions::new().write(true).open(rt, path)?;
    file.set_len(len)
}

/// Whether a fact holds of the first disk.
fn first_holds(rt: &HostRuntime, disks: &mut Vec<FileDisk>, fact: Fact<'_>) -> Result<bool, Fail> {
    match disks.first_mut() {
        Some(disk) => holds(rt.alloc(), disk, fact),
        None => Err(Fail::from("no disk")),
    }
}

/// Does what a row says, or tells whether it holds.
fn play(rt: &HostRuntime, disks: &mut Vec<FileDisk>, row: Row<'_>) -> Result<bool, Fail> {
    match row {
        Holds(way, path) => disks.push(opened(rt, way, path)?)?,
        Refuses(number, way, path) => return Ok(number_of(opened(rt, way, path)) == number),
        First(fact) => return first_holds(rt, disks, fact),
        LetsGo => drop(first(disks)?),
        Discards(path) => first(disks)?.discard(rt, path),
        Removes(path) => fs::remove_file(rt, path)?,
        Renames(path, other) => fs::rename(rt, path, other)?,
        Resizes(path, len) => resize(rt, path, len)?,
    }
    Ok(true)
}

/// Plays these rows; no disk is held before.
fn plays(rt: &HostRuntime, rows: &[Row<'_>]) -> Result<(), Fail> {
    let mut disks = Vec::new(rt.alloc());
    for (number, row) in rows.iter().enumerate() {
        judged(rt, number, play(rt, &mut disks, *row))?;
    }
    Ok(())
}

const READ_BACK: [Row<'static>; 15] = [
    Holds(Create, "made.disk"),
    First(Script([0, 0, 0, 0, 0, 0])),
    First(Answers(53, Write(4100, 1, 1))),
    First(Answers(53, Read(4096, 4))),
    LetsGo,
    Holds(Open, "./made.disk"),
    First(Ones(4094, &[2, 3, 4, 5, 6])),
    LetsGo,
    // A file that is there already isn't removed when its disk is discarded.
    Holds(Create, "made.disk"),
    First(Fact::Size(4099)),
    Discards("made.disk"),
    Holds(OpenToRead, "made.disk"),
    First(Fact::Size(4099)),
    LetsGo,
    Removes("made.disk"),
];

const ONE_WRITER: [Row<'static>; 12] = [
    Holds(Create, "locked.disk"),
    Refuses(54, Open, "locked.disk"),
    Refuses(54, Create, "locked.disk"),
    Refuses(54, OpenToRead, "locked.disk"),
    LetsGo,
    Holds(OpenToRead, "locked.disk"),
    Holds(OpenToRead, "locked.disk"),
    Refuses(54, Open, "locked.disk"),
    LetsGo,
    LetsGo,
    Refuses(0, Open, "locked.disk"),
    Removes("locked.disk"),
];

const DISCARDED: [Row<'static>; 11] = [
    Holds(Create, "discarded.disk"),
    First(Answers(0, Write(0, 1, 1))),
    Discards("discarded.disk"),
    Refuses(54, Open, "discarded.disk"),
    // The first disk's file is gone, and another one has its name: it isn't removed.
    Holds(Create, "discarded.disk"),
    Removes("discarded.disk"),
    Holds(Create, "discarded.disk"),
    Discards("discarded.disk"),
    LetsGo,
    Refuses(0, Open, "discarded.disk"),
    Removes("discarded.disk"),
];

const REFUSED: [Row<'static>; 15] = [
    Refuses(54, Open, "missing.disk"),
    Refuses(54, OpenToRead, "missing.disk"),
    Refuses(54, Open, "."),
    Refuses(54, OpenToRead, "."),
    Refuses(54, Open, ""),
    Refuses(54, OpenToRead, ""),
    Refuses(54, Open, "/dev/null"),
    Refuses(54, OpenToRead, "/dev/null"),
    Refuses(54, Create, "."),
    Refuses(54, Create, "missing/made.disk"),
    Refuses(54, Create, ""),
    Refuses(54, Create, "/dev/null"),
    // A file of the system's own, which has no bytes of its own to write or to sync.
    Holds(OpenToRead, "/proc/self/stat"),
    First(Answers(51, Write(0, 1, 1))),
    First(Answers(52, Sync)),
];

const WENT_AWAY: [Row<'static>; 14] = [
    Holds(Create, "removed.disk"),
    First(Answers(0, Write(0, 1, 4))),
    First(Answers(0, Sync)),
    Renames("removed.disk", "renamed.disk"),
    First(Answers(0, Write(0, 2, 4))),
    First(Answers(0, Sync)),
    Resizes("renamed.disk", 3),
    First(Answers(51, Write(0, 3, 4))),
    First(Answers(50, Size)),
    Resizes("renamed.disk", 4),
    First(Answers(0, Write(0, 3, 4))),
    First(Answers(0, Sync)),
    Removes("renamed.disk"),
    First(Answers(51, Write(0, 4, 4))),
];

/// What each case shows, and its rows.
static CASES: [(&str, &[Row<'static>]); 5] = [
    ("a real file reads back", &READ_BACK),
    ("a real file has one writer or readers", &ONE_WRITER),
    ("a file that was made is discarded", &DISCARDED),
    ("a real file refuses", &REFUSED),
    ("a file that went away takes no writes", &WENT_AWAY),
];

#[test]
fn real_files_are_disks(rt: HostRuntime) -> Result<(), Fail> {
    for (name, rows) in &CASES {
        named(&rt, name, plays(&rt, rows))?;
    }
    Ok(())
}
