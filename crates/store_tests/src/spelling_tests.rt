//! Records to the byte, both ways.
use crate::test_bytes::bytes_of;
use crate::test_ops::{op, token};
use crate::test_rows::{Case, World, counted, named, play, told};
use change_codec::{Format, put_op, take_op};
use op_ids::Token;
use op_model::Op;
use std::alloc::Global;
use std::test::Fail;

/// Whether an operation is written as these bytes.
fn is_written(alloc: Global, op: &Op, bytes: &[u8]) -> bool {
    let mut out = Vec::new(alloc);
    put_op(op, &mut out).is_ok() && out.as_slice() == bytes
}

/// Whether these bytes may go on to a record, and aren't one.
pub(crate) fn is_unfinished(alloc: Global, bytes: &[u8]) -> bool {
    match take_op(alloc, Format::Third, bytes) {
        Ok(None) => true,
        Ok(Some(_)) => false,
        Err(_) => false,
    }
}

/// Whether these bytes are taken as an operation, to the last one.
fn is_taken(alloc: Global, bytes: &[u8], expected: &Op) -> bool {
    match take_op(alloc, Format::Third, bytes) {
        Ok(Some((taken, len))) => len == bytes.len() && taken == *expected,
        Ok(None) => false,
        Err(_) => false,
    }
}

/// Both directions, and that no beginning is an operation.
fn is_spelled(alloc: Global, bytes: &[u8], expected: &Op) -> bool {
    for end in 0..bytes.len() {
        if !is_unfinished(alloc, &bytes[..end]) {
            return false;
        }
    }
    is_written(alloc, expected, bytes) && is_taken(alloc, bytes, expected)
}

/// Whether a record is the spelling of an operation with this token: `1 insert 0 a = FIRST`.
fn spelled(alloc: Global, token: Option<Token>, words: &str) -> Result<bool, Fail> {
    let (said, record) = words.split_once(" = ").ok_or("no record")?;
    let bytes = bytes_of(alloc, record)?;
    let op = with_token(alloc, token, said)?;
    Ok(is_spelled(alloc, &bytes, &op))
}

/// How long the record of an operation with the token is.
fn length(alloc: Global, words: &str) -> Result<String, Fail> {
    let op = with_token(alloc, token(), words)?;
    counted(alloc, op.record_length() as usize)
}

/// The operation that words say, with this token.
fn with_token(alloc: Global, token: Option<Token>, words: &str) -> Result<Op, Fail> {
    let mut op = op(alloc, 1, words)?;
    op.token = token;
    Ok(op)
}

/// Whether a record that stands at the front of these bytes is written as it stands there.
fn is_spelling_or_refused(alloc: Global, bytes: &[u8]) -> bool {
    match take_op(alloc, Format::Third, bytes) {
        Ok(Some((op, len))) => is_written(alloc, &op, &bytes[..len]),
        Ok(None) => true,
        Err(_) => true,
    }
}

/// Whether each change of one byte to 0, 1 or 255 gives a spelling or is refused.
fn swept(alloc: Global, words: &str) -> Result<bool, Fail> {
    let mut bytes = bytes_of(alloc, words)?;
    for index in 0..bytes.len() {
        let kept = bytes[index];
        for value in [0, 1, 255] {
            bytes[index] = value;
            if !is_spelling_or_refused(alloc, &bytes) {
                return Ok(false);
            }
        }
        bytes[index] = kept;
    }
    Ok(true)
}

/// Records need nothing to be held.
#[derive(Drop)]
struct Spellings;

impl World for Spellings {
    fn answer(&mut self, alloc: Global, command: &str, words: &str) -> Result<String, Fail> {
        match command {
            "spelled" => told(alloc, spelled(alloc, None, words)),
            "with-token" => told(alloc, spelled(alloc, token(), words)),
            "length" => length(alloc, words),
            "swept" => told(alloc, swept(alloc, words)),
            _ => Err("no such command".into()),
        }
    }
}

static CASES: [Case; 4] = [
    (
        "the vectors are spelled",
        "spelled 1 insert 0 a = FIRST : true
        spelled 2 insert 1 b = SECOND : true
        spelled 2 mark strong = STRONG : true
        spelled 1 unmark strong = NO_STRONG : true",
    ),
    (
        "links comments and removes are spelled",
        "spelled 1 mark link = LINK : true
        spelled 1 mark comment = COMMENT : true
        spelled 1 remove = REMOVE : true",
    ),
    (
        "a token is spelled",
        "with-token 1 insert 0 a = WITH_TOKEN : true
        length 1 insert 0 a : 55",
    ),
    (
        "changed bytes are spellings or refused",
        "swept FIRST : true
        swept SECOND : true
        swept STRONG : true",
    ),
];

#[test]
fn records_are_spelled(rt: HostRuntime) -> Result<(), Fail> {
    for (name, rows) in &CASES {
        named(&rt, name, play(rt.alloc(), &mut Spellings, rows))?;
    }
    Ok(())
}
