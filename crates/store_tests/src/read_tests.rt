//! Streams that have runs, read as lists.
ghost use Rattle.std.specs.Prelude.{◌+◌, ◌≤◌, length};

use crate::test_bytes::bytes_of;
use crate::test_rows::{Case, World, counted, cut_number, named, play, told};
use change_codec::{Format, put_ops};
use run_list::RunList;
use std::alloc::Global;
use std::test::Fail;
use stream_list::{ReadError, StreamReader, read_stream};

/// What is read of bytes as so many operations, or the number of its refusal.
fn read(alloc: Global, format: Format, count: u64, bytes: Vec<u8>) -> Result<RunList, u8> {
    if bytes.as_slice().len() > 1_000 {
        return Err(0);
    }
    read_stream(alloc, format, count, bytes).map_err(|error| error.number())
}

/// Whether the operations of a list have these records.
fn have_records(alloc: Global, list: &RunList, expected: &[u8]) -> Result<bool, Fail> {
    let mut found = Vec::new(alloc);
    put_ops(&list.as_slice().copy_from(alloc, 0)?, &mut found)?;
    Ok(found.as_slice() == expected)
}

/// Whether records are read as the operations of as many single ones: `2 AB = FIRST SECOND`.
fn are_read(alloc: Global, words: &str) -> Result<bool, Fail> {
    let (count, words) = cut_number(words)?;
    let (records, singles) = words.split_once('=').ok_or("no records")?;
    let expected = bytes_of(alloc, singles)?;
    match read(alloc, Format::Second, count, bytes_of(alloc, records)?) {
        Ok(list) => have_records(alloc, &list, &expected),
        Err(_) => Ok(false),
    }
}

/// The number of the refusal of records as so many operations, or 0.
fn refusal(alloc: Global, format: Format, words: &str) -> Result<String, Fail> {
    let (count, records) = cut_number(words)?;
    match read(alloc, format, count, bytes_of(alloc, records)?) {
        Ok(_) => counted(alloc, 0),
        Err(number) => counted(alloc, usize::from(number)),
    }
}

/// Whether the first `end` bytes of the first insert and a run behind it are read.
fn is_whole(alloc: Global, end: usize) -> Result<bool, Fail> {
    let mut bytes = bytes_of(alloc, "FIRST AB")?;
    bytes.truncate(end);
    match read(alloc, Format::Third, if end < 84 { 1 } else { 3 }, bytes) {
        Ok(_) => Ok(true),
        Err(_) => Ok(false),
    }
}

/// Whether only those are read that end with one of the two records.
fn are_cuts_refused(alloc: Global) -> Result<bool, Fail> {
    for end in 0..=84 {
        if is_whole(alloc, end)? != (end == 39 || end == 84) {
            return Ok(false);
        }
    }
    Ok(true)
}

/// What is read of bytes as three operations, where they come in two parts.
fn read_parts(alloc: Global, front: &[u8], back: &[u8]) -> Result<RunList, ReadError>
    requires { length front.now + length back.now ≤ 1000 }
{
    let reader = StreamReader::new(alloc, Format::Third, 3).feed(front)?;
    reader.feed(back)?.finish()
}

/// Whether the first insert and a run behind it are read, wherever they are cut in two.
fn are_parts_read(alloc: Global) -> Result<bool, Fail> {
    let bytes = bytes_of(alloc, "FIRST CD")?;
    let expected = bytes_of(alloc, "FIRST THIRD FOURTH")?;
    if bytes.len() > 1_000 {
        return Ok(false);
    }
    for end in 0..=bytes.len() {
        let (front, back) = bytes.split_at(end);
        let Ok(list) = read_parts(alloc, front, back) else {
            return Ok(false);
        };
        if !have_records(alloc, &list, &expected)? {
            return Ok(false);
        }
    }
    Ok(true)
}

/// Streams need nothing to be held.
#[derive(Drop)]
struct Streams;

impl World for Streams {
    fn answer(&mut self, alloc: Global, command: &str, words: &str) -> Result<String, Fail> {
        match command {
            "length" => counted(alloc, bytes_of(alloc, words)?.len()),
            "are" => told(alloc, are_read(alloc, words)),
            "first" => refusal(alloc, Format::First, words),
            "third" => refusal(alloc, Format::Third, words),
            "cuts" => told(alloc, are_cuts_refused(alloc)),
            "parts" => told(alloc, are_parts_read(alloc)),
            _ => Err("no such command".into()),
        }
    }
}

static CASES: [Case; 6] = [
    (
        "a run is read as its operations",
        "length AB : 45
        are 2 AB = FIRST SECOND : true",
    ),
    (
        "single records and runs are read",
        "are 0 = : true
        are 2 FIRST STRONG = FIRST STRONG : true
        are 4 FIRST SECOND CD = FIRST SECOND THIRD FOURTH : true
        are 4 AB CD = FIRST SECOND THIRD FOURTH : true
        are 4 AB THIRD FOURTH = FIRST SECOND THIRD FOURTH : true
        are 4 FIRST SECOND THIRD FOURTH = FIRST SECOND THIRD FOURTH : true
        are 4 FIRST SECOND THIRD THIRD = FIRST SECOND THIRD THIRD : true",
    ),
    (
        "another number of operations is refused",
        "third 0 FIRST CD : 46
        third 1 FIRST CD : 46
        third 2 FIRST CD : 46
        third 3 FIRST CD : 0
        third 4 FIRST CD : 46
        third 5 FIRST CD : 46",
    ),
    (
        "the first format has no runs",
        "first 2 AB : 46
        first 2 FIRST SECOND : 0",
    ),
    ("a cut run is refused", "cuts : true"),
    ("a stream in two parts is read as one", "parts : true"),
];

#[test]
fn streams_are_read(rt: HostRuntime) -> Result<(), Fail> {
    for (name, rows) in &CASES {
        named(&rt, name, play(rt.alloc(), &mut Streams, rows))?;
    }
    Ok(())
}
