//! How lines are read into commands.
use crate::rows::{Part, is_found, judged, made, shown};
use session_lines::{Command, Refusal, read_command};
use std::alloc::Global;
use std::io::Eprint;
use std::test::Fail;

/// Lines, and what each of them is read as, by its Debug text, or why it is refused.
pub type Lines = (&'static [&'static [u8]], Result<&'static str, Refusal>);

/// Each of these lines is read or refused so.
pub fn all_read(rt: &(impl Eprint + AllocGlobal), rows: &[Lines]) -> Result<(), Fail> {
    for (lines, due) in rows {
        for line in lines.iter() {
            let found = read_command(rt.alloc(), line);
            judged(rt, shown(line), is_found(rt.alloc(), found, *due))?;
        }
    }
    Ok(())
}

const NO_JSON: [&[u8]; 6] = [
    b"[",
    b"",
    b"  ",
    b"{\"op\":\"\xff\"}",
    b"{\"op\":\"status\"} 1",
    b"{\"op\":\"text\",\"doc\":1E400}",
];

const NO_REQUESTS: [&[u8]; 8] = [
    b"7",
    b"[\"status\"]",
    b"{}",
    b"{\"op\":\"fly\"}",
    b"{\"op\":\"fly\",\"doc\":0}",
    b"{\"op\":\"version\",\"doc\":1,\"every\":1}",
    b"{\"op\":1}",
    b"{\"op\":null}",
];

const NO_NUMBERS: [&[u8]; 11] = [
    b"{\"op\":\"text\",\"doc\":0}",
    b"{\"op\":\"text\",\"doc\":4294967296}",
    b"{\"op\":\"text\",\"doc\":-1}",
    b"{\"op\":\"text\",\"doc\":-0}",
    b"{\"op\":\"text\",\"doc\":1.0}",
    b"{\"op\":\"text\",\"doc\":1e0}",
    b"{\"op\":\"text\",\"doc\":18446744073709551616}",
    b"{\"op\":\"text\",\"doc\":\"1\"}",
    b"{\"op\":\"text\",\"doc\":null}",
    b"{\"op\":\"text\",\"doc\":true}",
    b"{\"op\":\"text\"}",
];

const BAD_FIELDS: [&[u8]; 16] = [
    b"{\"op\":\"status\",\"doc\":1}",
    b"{\"op\":\"stop\",\"rev\":0}",
    b"{\"op\":\"text\",\"doc\":1,\"rev\":0}",
    b"{\"op\":\"insert\",\"doc\":1,\"at\":0,\"text\":\"\"}",
    b"{\"op\":\"insert\",\"doc\":0,\"at\":0,\"text\":\"a\"}",
    b"{\"op\":\"insert\",\"doc\":1,\"at\":1.0,\"text\":\"a\"}",
    b"{\"op\":\"insert\",\"doc\":1,\"at\":0,\"text\":\"a\",\"rev\":null}",
    b"{\"op\":\"insert\",\"doc\":1,\"at\":0,\"text\":\"a\",\"count\":1}",
    b"{\"op\":\"delete\",\"doc\":1,\"at\":0,\"count\":0}",
    b"{\"op\":\"mark\",\"doc\":1,\"from\":0,\"to\":1,\"kind\":\"bold\"}",
    b"{\"op\":\"mark\",\"doc\":1,\"from\":0,\"to\":1,\"kind\":\"strong\",\"url\":\"u\"}",
    b"{\"op\":\"mark\",\"doc\":1,\"from\":0,\"to\":1,\"kind\":\"link\"}",
    b"{\"op\":\"mark\",\"doc\":1,\"from\":0,\"to\":1,\"kind\":\"link\",\"url\":\"\"}",
    b"{\"op\":\"unmark\",\"doc\":1,\"from\":0,\"to\":1,\"kind\":\"link\",\"url\":\"u\"}",
    b"{\"op\":\"mark\",\"doc\":1,\"from\":0,\"to\":1,\"kind\":\"comment\",\"id\":\"c1\"}",
    b"{\"op\":\"unmark\",\"doc\":1,\"from\":0,\"to\":1,\"kind\":\"comment\"}",
];

/// No numbers of operations that a document is to be shown with, or that a version may have.
const NO_COUNTS: [&[u8]; 16] = [
    b"{\"op\":\"text\",\"doc\":1,\"at_rev\":4294967296}",
    b"{\"op\":\"text\",\"doc\":1,\"at_rev\":-1}",
    b"{\"op\":\"text\",\"doc\":1,\"at_rev\":1.5}",
    b"{\"op\":\"text\",\"doc\":1,\"at_rev\":\"1\"}",
    b"{\"op\":\"text\",\"doc\":1,\"at_rev\":null}",
    b"{\"op\":\"text\",\"doc\":1,\"at_rev\":1,\"rev\":1}",
    b"{\"op\":\"text\",\"doc\":0,\"at_rev\":1}",
    b"{\"op\":\"spans\",\"doc\":1,\"at_rev\":4294967296}",
    b"{\"op\":\"spans\",\"doc\":1,\"at_rev\":null}",
    b"{\"op\":\"spans\",\"doc\":1,\"at_rev\":1,\"every\":1}",
    b"{\"op\":\"versions\",\"doc\":1,\"every\":0}",
    b"{\"op\":\"versions\",\"doc\":1,\"every\":4294967296}",
    b"{\"op\":\"versions\",\"doc\":1,\"every\":\"1\"}",
    b"{\"op\":\"versions\",\"doc\":1}",
    b"{\"op\":\"versions\",\"doc\":0,\"every\":1}",
    b"{\"op\":\"versions\",\"doc\":1,\"every\":1,\"at_rev\":1}",
];

static LINES: [Lines; 20] = [
    (&NO_JSON, Err(Refusal::Syntax)),
    (&NO_REQUESTS, Err(Refusal::Request)),
    (&NO_NUMBERS, Err(Refusal::Field)),
    (&BAD_FIELDS, Err(Refusal::Field)),
    (&NO_COUNTS, Err(Refusal::Field)),
    (
        &[b"{\"op\":\"text\",\"doc\":4294967295}"],
        Ok("Text { doc: 4294967295, at_rev: None }"),
    ),
    (
        &[b" {\"doc\":1, \"op\":\"spans\"} "],
        Ok("Spans { doc: 1, at_rev: None }"),
    ),
    (
        &[b"{\"op\":\"text\",\"doc\":1,\"at_rev\":0}"],
        Ok("Text { doc: 1, at_rev: Some(0) }"),
    ),
    (
        &[b"{\"op\":\"text\",\"doc\":1,\"at_rev\":4294967295}"],
        Ok("Text { doc: 1, at_rev: Some(4294967295) }"),
    ),
    (
        &[b"{\"at_rev\":0,\"doc\":2,\"op\":\"spans\"}"],
        Ok("Spans { doc: 2, at_rev: Some(0) }"),
    ),
    (
        &[b"{\"op\":\"spans\",\"doc\":1,\"at_rev\":4294967295}"],
        Ok("Spans { doc: 1, at_rev: Some(4294967295) }"),
    ),
    (
        &[b"{\"op\":\"versions\",\"doc\":1,\"every\":1}"],
        Ok("Versions { doc: 1, every: 1 }"),
    ),
    (
        &[b"{\"op\":\"versions\",\"doc\":4294967295,\"every\":4294967295}"],
        Ok("Versions { doc: 4294967295, every: 4294967295 }"),
    ),
    (&[b"{\"op\":\"status\"}"], Ok("Status")),
    (&[b"{\"op\":\"peers\"}"], Ok("Peers")),
    (&[b"{\"op\":\"stop\"}"], Ok("Stop")),
    (
        &[
            b"{\"op\":\"insert\",\"doc\":1,\"at\":0,\"text\":\"a\\u00e9\xf0\x9f\x98\x80\",\"rev\":7}",
        ],
        Ok(
            "Edit(PlacedAction { action: Action { first: Edit { doc: 1, rev: Some(7), token: None, change: Insert { at: 0, text: EditText { characters: ['a', 'é', '😀'] } } }, others: [] }, first: Spots { from: None, to: None }, others: [] })",
        ),
    ),
    (
        &[b"{\"op\":\"delete\",\"doc\":9,\"at\":3,\"count\":2}"],
        Ok(
            "Edit(PlacedAction { action: Action { first: Edit { doc: 9, rev: None, token: None, change: Delete { at: 3, count: 2 } }, others: [] }, first: Spots { from: None, to: None }, others: [] })",
        ),
    ),
    (
        &[b"{\"op\":\"mark\",\"doc\":1,\"from\":0,\"to\":3,\"kind\":\"link\",\"url\":\"u\"}"],
        Ok(
            "Edit(PlacedAction { action: Action { first: Edit { doc: 1, rev: None, token: None, change: Mark { from: 0, to: 3, mark: Link(Url { text: \"u\" }) } }, others: [] }, first: Spots { from: None, to: None }, others: [] })",
        ),
    ),
    (
        &[
            b"{\"op\":\"unmark\",\"doc\":1,\"from\":1,\"to\":2,\"kind\":\"comment\",\"id\":\"00000000000000000000000000000000\"}",
        ],
        Ok(
            "Edit(PlacedAction { action: Action { first: Edit { doc: 1, rev: None, token: None, change: Unmark { from: 1, to: 2, key: Comment(CommentId { number: 0 }) } }, others: [] }, first: Spots { from: None, to: None }, others: [] })",
        ),
    ),
];

#[test]
fn requests_are_read_or_refused(rt: HostRuntime) -> Result<(), Fail> {
    all_read(&rt, &LINES)
}

/// How many edits a line makes beside the first, if any, or why it is refused.
fn others_of(alloc: Global, line: &[u8]) -> Result<usize, Refusal> {
    match read_command(alloc, line)? {
        Command::Edit(placed) => Ok(placed.action().others().len()),
        _ => Ok(0),
    }
}

/// Whether a line that is put together makes so many edits beside the first, or is refused so.
pub fn has_others(
    alloc: Global,
    parts: &[Part<'_>],
    due: Result<usize, Refusal>,
) -> Result<bool, Fail> {
    let line = made(alloc, parts)?;
    Ok(others_of(alloc, &line) == due)
}

/// What a long line shows, its parts, and what comes of it.
static LONG: [(&str, &[Part<'static>], Result<usize, Refusal>); 3] = [
    (
        "a URL of 1,025 bytes",
        &[
            (
                b"{\"op\":\"mark\",\"doc\":1,\"from\":0,\"to\":1,\"kind\":\"link\",\"url\":\"",
                1,
            ),
            (b"u", 1_025),
            (b"\"}", 1),
        ],
        Err(Refusal::Field),
    ),
    (
        "1,024 edits",
        &[
            (b"{\"op\":\"edits\",\"doc\":1,\"edits\":[", 1),
            (b"{\"op\":\"delete\",\"at\":0,\"count\":1},", 1_023),
            (b"{\"op\":\"delete\",\"at\":0,\"count\":1}]}", 1),
        ],
        Ok(1_023),
    ),
    (
        "1,025 edits",
        &[
            (b"{\"op\":\"edits\",\"doc\":1,\"edits\":[", 1),
            (b"{\"op\":\"delete\",\"at\":0,\"count\":1},", 1_024),
            (b"{\"op\":\"delete\",\"at\":0,\"count\":1}]}", 1),
        ],
        Err(Refusal::Field),
    ),
];

#[test]
fn a_url_and_the_edits_of_a_line_have_their_limits(rt: HostRuntime) -> Result<(), Fail> {
    for (name, parts, due) in &LONG {
        judged(&rt, name, has_others(rt.alloc(), parts, *due))?;
    }
    Ok(())
}
