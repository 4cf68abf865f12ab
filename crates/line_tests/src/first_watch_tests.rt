//! Whether the first line of a session asks to be told of changes, and what is handed on else.
use crate::rows::{Part, judged, made, shown};
use crate::wires::{Wire, all_of};
use first_bytes::FirstWatch;
use std::alloc::{AllocError, Global};
use std::io::Read;
use std::test::Fail;

/// How many bytes are given at a time.
const SIZES: [usize; 6] = [1, 2, 3, 24, 25, 1_000];

const WATCH_7: &str = "Some(Watch { watching: One(7), is_followed: false })";

/// What a row shows, what is said, how many bytes are given at a time, and the Debug text of the
/// watch that is asked for, if one is.
type Row = (
    &'static str,
    &'static [Part<'static>],
    &'static [usize],
    &'static str,
);

static ROWS: [Row; 11] = [
    (
        "a watch",
        &[(b"{\"op\":\"watch\",\"doc\":7}\n", 1)],
        &SIZES,
        WATCH_7,
    ),
    (
        "a watch with spaces",
        &[(b" { \"doc\" : 7, \"op\" : \"watch\" } \n", 1)],
        &SIZES,
        WATCH_7,
    ),
    (
        "a watch, and more right behind it",
        &[(b"{\"op\":\"watch\",\"doc\":1}\n{", 1)],
        &[1_000],
        "Some(Watch { watching: One(1), is_followed: true })",
    ),
    ("nothing", &[], &SIZES, "None"),
    (
        "no line feed",
        &[(b"{\"op\":\"watch\",\"doc\":1}", 1)],
        &SIZES,
        "None",
    ),
    (
        "an empty line before",
        &[(b"\n{\"op\":\"watch\",\"doc\":1}\n", 1)],
        &SIZES,
        "None",
    ),
    (
        "many spaces before",
        &[(b" ", 16_400), (b"{\"op\":\"watch\",\"doc\":1}\n", 1)],
        &SIZES,
        "None",
    ),
    (
        "another line before, and many spaces behind",
        &[
            (
                b"{\"op\":\"text\",\"doc\":1}\n{\"op\":\"watch\",\"doc\":1}\n",
                1,
            ),
            (b" ", 16_400),
        ],
        &SIZES,
        "None",
    ),
    (
        "document 0",
        &[(b"{\"op\":\"watch\",\"doc\":0}\n", 1)],
        &SIZES,
        "None",
    ),
    (
        "no documents",
        &[(b"{\"op\":\"watch\",\"docs\":[]}\n", 1)],
        &SIZES,
        "None",
    ),
    (
        "a field too many",
        &[(b"{\"op\":\"watch\",\"doc\":1,\"rev\":0}\n", 1)],
        &SIZES,
        "None",
    ),
];

/// Whether this is all that is handed on.
fn is_handed_on(alloc: Global, reader: &mut FirstWatch<Wire>, due: &[u8]) -> Result<bool, Fail> {
    let found = all_of(alloc, reader)?;
    Ok(found.as_slice() == due)
}

/// Whether the watch with this Debug text is asked for, just once.
fn is_watch(alloc: Global, reader: &mut FirstWatch<Wire>, due: &str) -> Result<bool, Fail> {
    let watch = reader.take_watch();
    let shown = format!(in alloc; "{watch:?}")?;
    Ok(shown.as_str() == due && reader.take_watch().is_none())
}

/// Whether this is handed on, the watch is asked for, and there is no more to read then.
fn is_right(
    alloc: Global,
    reader: &mut FirstWatch<Wire>,
    handed_on: &[u8],
    due: &str,
) -> Result<bool, Fail> {
    let is_due = is_handed_on(alloc, reader, handed_on)? && is_watch(alloc, reader, due)?;
    let is_over = reader.read(&mut [0; 8])? == 0;
    Ok(is_due && is_over && reader.is_watch() == (due != "None"))
}

/// Whether this asks for the watch with this Debug text, given so many bytes at a time: then nothing
/// is handed on, and all of it where it asks for none.
fn is_asked(alloc: Global, said: &[u8], size: usize, due: &str) -> Result<bool, Fail> {
    let mut reader = FirstWatch::new(alloc, Wire::new(alloc, said, size)?);
    let handed_on = if due == "None" { said } else { b"" };
    is_right(alloc, &mut reader, handed_on, due)
}

/// Whether that is so of what a row says, at this size.
fn is_so(alloc: Global, row: &Row, size: usize) -> Result<bool, Fail> {
    let (_, parts, _, due) = row;
    let said = made(alloc, parts)?;
    is_asked(alloc, &said, size, due)
}

#[test]
fn a_watch_is_told_by_the_first_line_and_all_else_handed_on(rt: HostRuntime) -> Result<(), Fail> {
    for row in &ROWS {
        for size in row.2.iter() {
            judged(&rt, row.0, is_so(rt.alloc(), row, *size))?;
        }
    }
    Ok(())
}

/// So many numbers of ten digits.
fn documents(alloc: Global, count: u32) -> Result<String, AllocError> {
    let mut list = String::from_str(alloc, "4000000000")?;
    for i in 1..count {
        let doc = 4_000_000_000 + i as u64;
        list.push_str(&format!(in alloc; ", {doc}")?)?;
    }
    Ok(list)
}

/// What a row shows, how many documents are asked for, and how many bytes are given at a time. What
/// stands before and behind the documents in the Debug text of the watch, and how often they do.
type Many = (
    &'static str,
    u32,
    &'static [usize],
    &'static [u8],
    usize,
    &'static [u8],
);

static MANY: [Many; 2] = [
    (
        "1,024 documents",
        1_024,
        &[1, 100, 4_096, 20_000],
        b"Some(Watch { watching: These(Numbers { numbers: [",
        1,
        b"] }), is_followed: false })",
    ),
    ("1,025 documents", 1_025, &[1_000], b"None", 0, b""),
];

/// So many times the same between two others.
fn between<'a>(
    alloc: Global,
    before: &'a [u8],
    docs: Part<'a>,
    behind: &'a [u8],
) -> Result<Vec<u8>, AllocError> {
    made(alloc, &[(before, 1), docs, (behind, 1)])
}

/// Whether a line with so many documents asks for the watch that a row names, at this size.
fn is_many(alloc: Global, row: &Many, size: usize) -> Result<bool, Fail> {
    let (_, count, _, before, times, behind) = row;
    let list = documents(alloc, *count)?;
    let docs = list.as_bytes();
    let line = between(alloc, b"{\"op\":\"watch\",\"docs\":[", (docs, 1), b"]}\n")?;
    let due = between(alloc, before, (docs, *times), behind)?;
    is_asked(alloc, &line, size, shown(&due))
}

#[test]
fn as_many_documents_are_watched_as_a_file_has(rt: HostRuntime) -> Result<(), Fail> {
    for row in &MANY {
        for size in row.2.iter() {
            judged(&rt, row.0, is_many(rt.alloc(), row, *size))?;
        }
    }
    Ok(())
}
