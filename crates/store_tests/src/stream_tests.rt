//! Streams of single records, written and read.
use crate::test_bytes::bytes_of;
use crate::test_names::id;
use crate::test_rows::{Case, World, counted, named, play, told};
use change_codec::{Format, Head, Kind, put_ops, record_head, skip_op, stream_length, take_ops};
use op_model::Op;
use std::alloc::Global;
use std::test::Fail;

/// How many operations a stream has, or the number of its refusal.
fn taken(alloc: Global, bytes: &[u8]) -> Result<String, Fail> {
    match take_ops(alloc, Format::Third, bytes) {
        Ok(ops) => {
            let count = ops.len();
            Ok(format!(in alloc; "{count} operations")?)
        }
        Err(fault) => counted(alloc, usize::from(fault.number())),
    }
}

/// Whether these operations are written as these bytes.
fn are_written(alloc: Global, ops: &[Op], bytes: &[u8]) -> bool {
    let mut out = Vec::new(alloc);
    put_ops(ops, &mut out).is_ok() && out.as_slice() == bytes
}

/// Whether these operations are written as these bytes, the length that their stream has, and that
/// of the first one's record.
fn written(alloc: Global, ops: &[Op], bytes: &[u8]) -> Result<String, Fail> {
    let stream = stream_length(ops);
    let first = ops.first().ok_or("no operation")?.record_length();
    let is_so = are_written(alloc, ops, bytes);
    Ok(format!(in alloc; "{is_so} {stream} {first}")?)
}

/// The same of the operations of a stream.
fn rewritten(alloc: Global, bytes: &[u8]) -> Result<String, Fail> {
    let ops = take_ops(alloc, Format::First, bytes)?;
    written(alloc, &ops, bytes)
}

/// Whether no part of a stream up to a byte but the first 39 is a stream.
fn are_cuts_refused(alloc: Global, bytes: &[u8]) -> bool {
    for end in 1..bytes.len() {
        if take_ops(alloc, Format::Third, &bytes[..end]).is_ok() != (end == 39) {
            return false;
        }
    }
    true
}

/// What the record at the front begins with.
fn head_of(bytes: &[u8]) -> Result<Head, Fail> {
    skip_op(Format::Third, bytes).ok_or("no record")?;
    Ok(record_head(bytes))
}

/// The same as text: whether it adds a mark, has a token, and is the second operation.
fn head(alloc: Global, bytes: &[u8]) -> Result<String, Fail> {
    let head = head_of(bytes)?;
    let (is_mark, is_second) = (head.kind == Kind::AddMark, head.id == id(2)?);
    let (has_token, doc) = (head.has_token, head.doc);
    Ok(format!(in alloc; "{is_mark} {has_token} {doc} {is_second}")?)
}

/// The length of the record at the front of bytes, if there is one.
fn passed(alloc: Global, bytes: &[u8]) -> Result<String, Fail> {
    match skip_op(Format::First, bytes) {
        Some(length) => counted(alloc, length),
        None => Ok(String::from_str(alloc, "none")?),
    }
}

/// Streams need nothing to be held.
#[derive(Drop)]
struct Streams;

impl World for Streams {
    fn answer(&mut self, alloc: Global, command: &str, words: &str) -> Result<String, Fail> {
        let bytes = bytes_of(alloc, words)?;
        match command {
            "take" => taken(alloc, &bytes),
            "written" => rewritten(alloc, &bytes),
            "cuts" => told(alloc, Ok(are_cuts_refused(alloc, &bytes))),
            "head" => head(alloc, &bytes),
            "pass" => passed(alloc, &bytes),
            "half" => passed(alloc, &bytes[..bytes.len() / 2]),
            _ => Err("no such command".into()),
        }
    }
}

static CASES: [Case; 3] = [
    (
        "a stream is written and read",
        "take FIRST SECOND : 2 operations
        written FIRST SECOND : true 126 39
        take : 0 operations",
    ),
    (
        "what is no stream is refused",
        "cuts FIRST SECOND : true
        take FIRST 00000000 : 46",
    ),
    (
        "a record is passed without memory",
        "pass STRONG : 85
        head STRONG : true false 1 true
        half STRONG : none",
    ),
];

#[test]
fn streams_of_single_records_are_written_and_read(rt: HostRuntime) -> Result<(), Fail> {
    for (name, rows) in &CASES {
        named(&rt, name, play(rt.alloc(), &mut Streams, rows))?;
    }
    Ok(())
}
