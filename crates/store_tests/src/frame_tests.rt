//! Frames that a link refuses, byte by byte.
use crate::test_bytes::bytes_of;
use crate::test_links::started;
use crate::test_rows::{Case, World, cut_number, named, play, refused};
use causal_sync::Link;
use std::alloc::Global;
use std::test::Fail;

/// The number of the refusal of these bytes, fed byte by byte to a link, and at which byte it came;
/// 0 where there is none.
fn refusal(link: &mut Link, bytes: &[u8]) -> (u8, usize) {
    for (index, byte) in bytes.iter().enumerate() {
        if let Err(fault) = link.feed(&[*byte]) {
            return (fault.number(), index + 1);
        }
    }
    (0, bytes.len())
}

/// The same of a new link of the replica with which words begin, and of the others' bytes.
fn first(alloc: Global, words: &str) -> Result<(u8, usize), Fail> {
    let (own, words) = cut_number(words)?;
    let bytes = bytes_of(alloc, words)?;
    let mut link = started(alloc, (own % 256) as u8)?;
    Ok(refusal(&mut link, &bytes))
}

/// The same as text.
fn told(alloc: Global, words: &str) -> Result<String, Fail> {
    let (number, at) = first(alloc, words)?;
    Ok(format!(in alloc; "{number} at {at}")?)
}

/// The number of the refusal of bytes behind a first frame.
fn later(alloc: Global, words: &str) -> Result<u8, Fail> {
    Ok(first(alloc, &format!(in alloc; "2 HELLO {words}")?)?.0)
}

/// Each row has a link of its own.
#[derive(Drop)]
struct Frames;

impl World for Frames {
    fn answer(&mut self, alloc: Global, command: &str, words: &str) -> Result<String, Fail> {
        match command {
            "first" => told(alloc, words),
            "later" => refused(alloc, later(alloc, words)),
            _ => Err("no such command".into()),
        }
    }
}

static CASES: [Case; 3] = [
    (
        "bad hellos are refused",
        "first 1 HELLO : 26 at 23
        first 2 HELLO : 0 at 23
        first 2 BYE : 26 at 5
        first 2 00000013 01 0001 A : 26 at 23
        first 2 00000013 01 0002 A : 26 at 23
        first 2 00000013 01 0004 A : 26 at 23
        first 2 00000014 01 0003 A 00 : 26 at 24
        first 2 00000003 01 0003 : 26 at 7
        first 2 NIL_HELLO : 26 at 23
        first 2 HELLO HELLO : 26 at 46",
    ),
    (
        "bad frames are refused",
        "first 2 0001fffd : 25 at 4
        first 2 00000000 : 25 at 4
        later 00000001 05 : 25
        later 00000002 04 00 : 25
        later 00000002 02 11 : 25
        later 00000003 02 00 00 : 25
        later 0000001a 02 01 A 0000000000000000 : 25
        later FALLING : 25
        later 00000003 03 0000 : 25
        later 00000003 03 0041 : 25
        later 00000007 03 0001 00000023 : 25
        later 00000007 03 0001 00000020 : 30
        later 0000002a 03 0001 00000023 06 00000001 0000000000000001 A 00 00 00000061 : 31
        later MORE_BEHIND : 25
        later CUT_RUN : 25
        later RUN_OF_ONE : 32",
    ),
    (
        "operations with a token are heard",
        "later 0000003a 03 0001 WITH_TOKEN : 0",
    ),
];

#[test]
fn frames_that_break_a_rule_are_refused(rt: HostRuntime) -> Result<(), Fail> {
    for (name, rows) in &CASES {
        named(&rt, name, play(rt.alloc(), &mut Frames, rows))?;
    }
    Ok(())
}
