//! Records of runs to the byte, both ways, and those that are refused.
use crate::test_bytes::bytes_of;
use crate::test_names::replica;
use crate::test_ops::token;
use change_codec::Format;
use op_ids::{Clock, OpId};
use op_model::{Body, Op};
use op_pieces::{Piece, cut};
use piece_codec::{put_piece, take_piece};
use std::alloc::Global;
use std::process::Abort;
use std::test::Fail;

/// An insert of "ab" into a fresh store.
const AB: &str = "00000029 05 00000001 0000000000000001 A 00 00 0002 00000061 00000062";

/// The same with a token.
const WITH_TOKEN: &str = "00000039 15 00000001 0000000000000001 A 00 T 00 0002 00000061 00000062";

/// The operation of a character that is typed behind so many others, the first of all.
fn typed(alloc: Global, has_token: bool, others: u64, value: char) -> Result<Op, Fail> {
    let replica = replica(1)?;
    let mut deps = Clock::new(alloc);
    deps.advance_by(replica, others)?;
    Ok(Op {
        id: OpId::try_new(others.saturating_add(1), replica).ok_or("counter")?,
        doc: 1,
        token: if has_token { token() } else { None },
        deps,
        body: Body::Insert {
            origin: OpId::try_new(others, replica),
            value,
        },
    })
}

/// The piece of a text that is typed into a fresh store.
fn piece_of(alloc: Global, has_token: bool, text: &str) -> Result<Piece, Fail> {
    let mut ops = Vec::new(alloc);
    for value in text.chars() {
        let op = typed(alloc, has_token, ops.len() as u64, value)?;
        ops.push(op)?;
    }
    let mut pieces = cut(alloc, &ops)?;
    Ok(pieces.pop().ok_or("no text")?)
}

/// Whether a piece is written as these bytes.
fn is_written(alloc: Global, piece: &Piece, bytes: &[u8]) -> bool {
    let mut out = Vec::new(alloc);
    put_piece(piece, &mut out).is_ok() && out.as_slice() == bytes
}

/// Whether both pieces have the same first operation and the same characters behind it.
fn is_same(a: &Piece, b: &Piece) -> bool {
    *a.first() == *b.first() && a.others() == b.others()
}

/// Whether these bytes are taken as a piece of a format, to the last one.
fn is_taken(alloc: Global, format: Format, bytes: &[u8], expected: &Piece) -> bool {
    match take_piece(alloc, format, bytes) {
        Ok(Some((taken, len))) => len == bytes.len() && is_same(&taken, expected),
        Ok(None) => false,
        Err(_) => false,
    }
}

/// Whether these bytes may go on to a record, and aren't one.
fn is_unfinished(alloc: Global, bytes: &[u8]) -> bool {
    match take_piece(alloc, Format::Third, bytes) {
        Ok(None) => true,
        Ok(Some(_)) => false,
        Err(_) => false,
    }
}

/// Both directions, and that no beginning is a piece.
fn is_spelled(rt: &impl Abort, alloc: Global, bytes: &[u8], piece: &Piece) {
    assert!(rt; is_written(alloc, piece, bytes));
    assert!(rt; is_taken(alloc, Format::Third, bytes, piece));
    for end in 0..bytes.len() {
        assert!(rt; is_unfinished(alloc, &bytes[..end]));
    }
}

#[test]
fn runs_are_spelled(rt: HostRuntime) -> Result<(), Fail> {
    let alloc = rt.alloc();
    let bytes = bytes_of(alloc, AB)?;
    assert_eq!(rt; bytes.len(), 45);
    let piece = piece_of(alloc, false, "ab")?;
    is_spelled(&rt, alloc, &bytes, &piece);
    assert!(rt; is_taken(alloc, Format::Second, &bytes, &piece));
    let piece = piece_of(alloc, true, "ab")?;
    is_spelled(&rt, alloc, &bytes_of(alloc, WITH_TOKEN)?, &piece);
    Ok(())
}

/// An insert of "a" into a fresh store.
const ONE: &str = "00000023 01 00000001 0000000000000001 A 00 00 00000061";

#[test]
fn an_operation_is_spelled_as_its_record(rt: HostRuntime) -> Result<(), Fail> {
    let alloc = rt.alloc();
    let bytes = bytes_of(alloc, ONE)?;
    let piece = piece_of(alloc, false, "a")?;
    is_spelled(&rt, alloc, &bytes, &piece);
    assert!(rt; is_taken(alloc, Format::First, &bytes, &piece));
    Ok(())
}

#[test]
fn a_run_has_up_to_256_characters(rt: HostRuntime) -> Result<(), Fail> {
    let alloc = rt.alloc();
    let mut text = String::new(alloc);
    for _ in 0..256 {
        text.push('é')?;
    }
    let piece = piece_of(alloc, true, &text)?;
    let mut bytes = Vec::new(alloc);
    put_piece(&piece, &mut bytes)?;
    assert_eq!(rt; bytes.len(), 61 + 4 * 254);
    assert!(rt; is_taken(alloc, Format::Third, &bytes, &piece));
    Ok(())
}

/// Bytes, and the number of their refusal in each format, or 0.
#[derive(Clone, Copy)]
struct Row<'a>(&'a str, u8, u8, u8);

/// The number of the refusal of these bytes in a format, or 0.
fn refusal(alloc: Global, format: Format, bytes: &[u8]) -> u8 {
    match take_piece(alloc, format, bytes) {
        Ok(_) => 0,
        Err(fault) => fault.number(),
    }
}

/// Each is refused so.
fn are_refused(rt: &impl Abort, alloc: Global, rows: &[Row<'_>]) -> Result<(), Fail> {
    for row in rows {
        let bytes = bytes_of(alloc, row.0)?;
        assert_eq!(rt; refusal(alloc, Format::First, &bytes), row.1, "{}", row.0);
        assert_eq!(rt; refusal(alloc, Format::Second, &bytes), row.2, "{}", row.0);
        assert_eq!(rt; refusal(alloc, Format::Third, &bytes), row.3, "{}", row.0);
    }
    Ok(())
}

/// What each format makes of runs; and of several faults the first one, which decides.
static REFUSED: [Row<'static>; 16] = [
    Row(AB, 31, 0, 0),
    Row(WITH_TOKEN, 31, 31, 0),
    Row(NIL_TOKEN, 31, 31, 32),
    Row("00000020 05 00000001", 30, 30, 30),
    Row("000005d4 05 00000001", 30, 30, 0),
    Row("000005e4 15 00000001", 30, 30, 30),
    Row("00000029 F 0001 00000061 00000062", 31, 32, 32),
    Row("00000029 F 0101 0000d800 00000062", 31, 32, 32),
    Row("00000029 F 0002 0000d800 00000062", 31, 33, 33),
    Row("00000029 F 0002 00000061 0000d800", 31, 33, 33),
    Row("00000028 F 0002 00000061 000062", 31, 30, 30),
    Row("00000029 F 0003 00000061 00000062", 31, 30, 30),
    Row("0000002a F 0002 00000061 00000062 00", 31, 30, 30),
    Row("0000002a F 0002 00000061 0000d800 00", 31, 33, 33),
    Row(PAST_THE_LAST_COUNTER, 31, 32, 32),
    Row(NO_ORIGIN, 31, 31, 31),
];

#[test]
fn a_format_has_its_runs_and_the_first_fault_decides(rt: HostRuntime) -> Result<(), Fail> {
    are_refused(&rt, rt.alloc(), &REFUSED)
}

/// A run with a token of zeros.
const NIL_TOKEN: &str = "00000039 15 00000001 0000000000000001 A 00 N N 00 0002 00000061 00000062";

/// A run whose second operation has no counter.
const PAST_THE_LAST_COUNTER: &str =
    "00000029 05 00000001 0000ffffffffffff A 00 00 0002 0000d800 00000062";

/// A run with no kind of origin, and one character.
const NO_ORIGIN: &str = "00000029 05 00000001 0000000000000001 A 00 02 0001 00000061 00000062";
