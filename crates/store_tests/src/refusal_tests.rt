//! Bytes that are no record, and the number of each refusal.
use crate::spelling_tests::is_unfinished;
use crate::test_bytes::bytes_of;
use crate::test_rows::{Case, World, named, play, told};
use change_codec::{Format, take_op};
use std::alloc::Global;
use std::test::Fail;

/// The number of the refusal of these bytes in a format, or 0.
fn number(alloc: Global, format: Format, bytes: &[u8]) -> u8 {
    match take_op(alloc, format, bytes) {
        Ok(_) => 0,
        Err(fault) => fault.number(),
    }
}

/// That in each of the three formats.
fn numbers(alloc: Global, words: &str) -> Result<String, Fail> {
    let bytes = bytes_of(alloc, words)?;
    let first = number(alloc, Format::First, &bytes);
    let second = number(alloc, Format::Second, &bytes);
    let third = number(alloc, Format::Third, &bytes);
    Ok(format!(in alloc; "{first} {second} {third}")?)
}

/// Whether bytes may go on to a record, and aren't one.
fn is_beginning(alloc: Global, words: &str) -> Result<bool, Fail> {
    Ok(is_unfinished(alloc, &bytes_of(alloc, words)?))
}

/// Records need nothing to be held.
#[derive(Drop)]
struct Refusals;

impl World for Refusals {
    fn answer(&mut self, alloc: Global, command: &str, words: &str) -> Result<String, Fail> {
        match command {
            "take" => numbers(alloc, words),
            "unfinished" => told(alloc, is_beginning(alloc, words)),
            _ => Err("no such command".into()),
        }
    }
}

static CASES: [Case; 3] = [
    (
        "lengths are told first",
        "unfinished 000000 : true
        unfinished 000005e3 : true
        take 000005d3 : 0 0 0
        take 000005d4 : 30 30 0
        take 00000020 : 30 30 30
        take 000005e4 : 30 30 30
        take 00000024 01 00000001 0000000000000001 A 00 00 00000061 00 : 30 30 30
        take 00000022 01 00000001 0000000000000001 A 00 00 000000 : 30 30 30
        take 00000020 05 00000001 0000000000000001 A 00 00 00 : 30 30 30",
    ),
    (
        "the first fault decides",
        "take 00000023 05 00000001 0000000000000001 A 00 00 00000061 : 31 31 31
        take 00000023 05 00000001 0000000000000000 A 00 00 00000061 : 31 31 31
        take 00000023 01 00000001 0000000000000000 A 00 00 00000061 : 32 32 32
        take 00000023 01 00000001 0000000000000000 A 00 00 0000d800 : 32 32 32
        take 00000023 01 00000001 0000000000000001 A 00 00 0000d800 : 33 33 33
        take 00000024 01 00000001 0000000000000001 A 00 00 0000d800 00 : 33 33 33
        take 00000024 03 00000001 0000000000000001 A 00 03 0001 ff 00 03 : 34 34 34
        take 00000024 03 00000001 0000000000000001 A 00 03 0001 ff 00 00 : 34 34 34
        take TWICE : 35 35 35
        take TWICE_FOR_NOTHING : 35 35 35
        take 00000021 04 00000001 0000000000000001 A 00 01 00 00 : 36 36 36
        take 00000022 04 00000001 0000000000000001 A 00 01 03 03 00 : 36 36 36",
    ),
    (
        "the third format alone has tokens",
        "take WITH_TOKEN : 31 31 0
        take 00000033 11 00000001 0000000000000001 A 00 N N 00 00000061 : 31 31 32
        take 00000033 10 00000001 0000000000000001 A 00 T 00 00000061 : 31 31 31
        take 00000033 15 00000001 0000000000000001 A 00 T 00 00000061 : 31 31 31",
    ),
];

#[test]
fn what_is_no_record_is_refused(rt: HostRuntime) -> Result<(), Fail> {
    for (name, rows) in &CASES {
        named(&rt, name, play(rt.alloc(), &mut Refusals, rows))?;
    }
    Ok(())
}
