//! Which files are opened, and with which numbers the others are refused.
use crate::test_rows::{Case, World, cut_number, named, play, told};
use crate::test_store::{disk_of, has_records, load};
use disk_trait::FaultDisk;
use group_commit::OpenError;
use std::alloc::Global;
use std::test::Fail;

/// Whether a file is opened with so many operations and these records: `1 INSERT_A in MADE | ONE`.
fn opens(alloc: Global, words: &str) -> Result<bool, Fail> {
    let (said, file) = words.split_once(" in ").ok_or("no file")?;
    let (count, records) = cut_number(said)?;
    let count = usize::try_from(count)?;
    let disk = disk_of(alloc, 64, file)?;
    has_records(alloc, Box::into_inner(disk), count, records)
}

/// The number with which a file is refused, or 0. The n-th call of its disk fails.
fn number_of(alloc: Global, n: u64, file: &str) -> Result<u8, Fail> {
    let disk = disk_of(alloc, 64, file)?;
    match load(alloc, FaultDisk::new(Box::into_inner(disk), n)) {
        Ok(_) => Ok(0),
        Err(number) => Ok(number),
    }
}

/// That number.
fn refusal(alloc: Global, words: &str) -> Result<String, Fail> {
    let (n, file) = cut_number(words)?;
    let number = number_of(alloc, n, file)?;
    Ok(format!(in alloc; "{number}")?)
}

/// Files need nothing to be held.
#[derive(Drop)]
struct Files;

impl World for Files {
    fn answer(&mut self, alloc: Global, command: &str, words: &str) -> Result<String, Fail> {
        match command {
            "opens" => told(alloc, opens(alloc, words)),
            "load" => refusal(alloc, words),
            "no-root" => Ok(format!(in alloc; "{}", OpenError::NoRoot)?),
            _ => Err("no such command".into()),
        }
    }
}

/// Plays rows of files.
fn plays(rt: &HostRuntime, rows: &str) -> Result<(), Fail> {
    play(rt.alloc(), &mut Files, rows)
}

static CASES: [Case; 10] = [
    (
        "files are opened",
        "opens 0 in MADE | | : true
        opens 1 INSERT_A in MADE | ONE | INSERT_A | 00000002 | : true
        opens 2 BOTH in TWO | ONE | INSERT_A | 00000002 | BOTH | 00000004 | : true",
    ),
    (
        "files of the earlier formats are opened",
        "opens 2 BOTH in OLD_TWO | OLD_ONE | INSERT_A | 00000002 | BOTH | 00000004 | : true
        opens 2 BOTH in TWO | OLD_ONE | INSERT_A | 00000002 | BOTH | 00000004 | : true",
    ),
    (
        "a run is its operations where the format has runs",
        "opens 2 BOTH in MADE | RUN_OF_SECOND | RUN_AB | 00000002 | : true
        opens 2 BOTH in MADE | RUN_OF_THIRD | RUN_AB | 00000002 | : true
        load 0 MADE | RUN_OF_FIRST | RUN_AB | 00000002 | : 46",
    ),
    (
        "a closed slot is passed",
        "opens 0 in MADE | ONE | INSERT_A | 00000002 | 4096=00 : true",
    ),
    // Equal versions, a root slot as a table page, a page that stands twice, a rest that isn't
    // zero, a scalar value that is none, and another magic.
    (
        "a byte breaks a file",
        "load 0 MADE | ONE | INSERT_A | 00000002 | 4119=01 : 43
        load 0 MADE | ONE | INSERT_A | 00000002 | 4163=01 : 43
        load 0 MADE | ONE | INSERT_A | 00000002 | 12291=03 : 45
        load 0 MADE | ONE | INSERT_A | 00000002 | 8231=01 : 46
        load 0 MADE | ONE | INSERT_A | 00000002 | 8229=d8 : 46
        load 0 MADE | ONE | INSERT_A | 00000002 | 4111=34 : 43",
    ),
    (
        "a made file with another magic is refused",
        "load 0 MADE | | 15=34 : 43",
    ),
    (
        "a short file is refused",
        "load 0 : 42
        load 0 MADE | : 42
        load 0 | | : 42",
    ),
    // No table page, and no data page.
    (
        "a page past the end is refused",
        "load 0 MADE | ONE | INSERT_A | : 43
        load 0 MADE | ONE | INSERT_A | 00000004 | : 45",
    ),
    // A sync, the size, the slots, the table page, the data page.
    (
        "each call may fail",
        "load 1 MADE | ONE | INSERT_A | 00000002 | : 52
        load 2 MADE | ONE | INSERT_A | 00000002 | : 50
        load 3 MADE | ONE | INSERT_A | 00000002 | : 50
        load 4 MADE | ONE | INSERT_A | 00000002 | : 50
        load 5 MADE | ONE | INSERT_A | 00000002 | : 50
        load 6 MADE | ONE | INSERT_A | 00000002 | : 0",
    ),
    ("a refusal is printed", "no-root : no root"),
];

#[test]
fn files_are_opened_or_refused(rt: HostRuntime) -> Result<(), Fail> {
    for (name, rows) in &CASES {
        named(&rt, name, plays(&rt, rows))?;
    }
    Ok(())
}
