//! The lines of a session over a WebSocket, which it takes by `Read`.
use crate::rows::{Part, judged, made};
use crate::wires::{Faults, NEVER, Wire, all_of};
use std::alloc::{AllocError, Global};
use std::io::{ErrorKind, Read};
use std::test::Fail;
use tungstenite::CloseCode;
use web_lines::{Ending, LONGEST, MessageLines};

/// One call has to wait after one that doesn't.
pub const ONE_WAIT: Faults = Faults {
    kind: ErrorKind::WouldBlock,
    left: 1,
    again: usize::MAX,
};

/// A stream that gives and takes so many bytes at a time. Every second read has to wait, the first
/// one too, and these writes fail.
pub fn late(alloc: Global, input: &[u8], size: usize, writes: Faults) -> Result<Wire, AllocError> {
    let mut wire = Wire::new(alloc, input, size)?;
    wire.reads = Faults {
        kind: ErrorKind::WouldBlock,
        left: 0,
        again: 1,
    };
    wire.takes = size;
    wire.writes = writes;
    Ok(wire)
}

pub const SIZES: [usize; 5] = [1, 2, 3, 7, 1_000];

/// What a row shows, frames of a client, how many bytes are given and taken at a time, and the lines,
/// the end and what is sent. The masks are zero but for the first.
type Row = (
    &'static str,
    &'static [Part<'static>],
    &'static [usize],
    &'static [Part<'static>],
    Ending,
    &'static [u8],
);

static ROWS: [Row; 15] = [
    (
        "\"Hello\" as RFC 6455 has it, section 5.7",
        &[(b"\x81\x85\x37\xfa\x21\x3d\x7f\x9f\x4d\x51\x58", 1)],
        &SIZES,
        &[(b"Hello\n", 1)],
        Ending::StreamEnded,
        b"",
    ),
    (
        "a message of two lines, one that ends with a line feed, and an empty one",
        &[(
            b"\x81\x83\0\0\0\0a\nb\x81\x82\0\0\0\0c\n\x81\x80\0\0\0\0",
            1,
        )],
        &SIZES,
        &[(b"a\nb\nc\n\n", 1)],
        Ending::StreamEnded,
        b"",
    ),
    (
        "a ping between two fragments",
        &[(b"\x01\x82\0\0\0\0He\x89\x81\0\0\0\0?\x80\x81\0\0\0\0y", 1)],
        &SIZES,
        &[(b"Hey\n", 1)],
        Ending::StreamEnded,
        b"\x8a\x01?",
    ),
    (
        "a pong that nobody asked for",
        &[(b"\x8a\x80\0\0\0\0\x81\x81\0\0\0\0a", 1)],
        &SIZES,
        &[(b"a\n", 1)],
        Ending::StreamEnded,
        b"",
    ),
    (
        "a close with a code; what comes after it is not read",
        &[(
            b"\x81\x81\0\0\0\0a\x88\x82\0\0\0\0\x03\xe8\x81\x81\0\0\0\0b",
            1,
        )],
        &SIZES,
        &[(b"a\n", 1)],
        Ending::Closed(Some(CloseCode::Normal)),
        b"\x88\x02\x03\xe8",
    ),
    (
        "a close without a code",
        &[(b"\x88\x80\0\0\0\0", 1)],
        &SIZES,
        &[(b"", 1)],
        Ending::Closed(None),
        b"\x88\x00",
    ),
    (
        "a binary message",
        &[(b"\x81\x81\0\0\0\0a\x82\x81\0\0\0\0b\x81\x81\0\0\0\0c", 1)],
        &SIZES,
        &[(b"a\n", 1)],
        Ending::Refused(CloseCode::Unsupported),
        b"\x88\x02\x03\xeb",
    ),
    (
        "a frame of 65,537 bytes: it is refused by its header",
        &[(b"\x81\xff\0\0\0\0\0\x01\0\x01\0\0\0\0aaaa", 1)],
        &SIZES,
        &[(b"", 1)],
        Ending::Refused(CloseCode::Size),
        b"\x88\x02\x03\xf1",
    ),
    (
        "a text that isn't UTF-8",
        &[(b"\x81\x81\0\0\0\0\xff", 1)],
        &SIZES,
        &[(b"", 1)],
        Ending::Refused(CloseCode::Invalid),
        b"\x88\x02\x03\xef",
    ),
    (
        "a frame without a mask",
        &[(b"\x81\x01a", 1)],
        &SIZES,
        &[(b"", 1)],
        Ending::Refused(CloseCode::Protocol),
        b"\x88\x02\x03\xea",
    ),
    (
        "a frame with a reserved bit",
        &[(b"\xc1\x81\0\0\0\0a", 1)],
        &SIZES,
        &[(b"", 1)],
        Ending::Refused(CloseCode::Protocol),
        b"\x88\x02\x03\xea",
    ),
    (
        "a fragment of nothing",
        &[(b"\x80\x81\0\0\0\0a", 1)],
        &SIZES,
        &[(b"", 1)],
        Ending::Refused(CloseCode::Protocol),
        b"\x88\x02\x03\xea",
    ),
    (
        "the stream ends inside of a frame",
        &[(b"\x81\x85\0\0\0\0Hel", 1)],
        &SIZES,
        &[(b"", 1)],
        Ending::StreamEnded,
        b"",
    ),
    (
        "a message of two fragments, as long as one of one frame may be",
        &[
            (b"\x01\xfe\xff\xff\0\0\0\0", 1),
            (b"a", 65_535),
            (b"\x80\x81\0\0\0\0a", 1),
        ],
        &[100_000],
        &[(b"a", LONGEST), (b"\n", 1)],
        Ending::StreamEnded,
        b"",
    ),
    (
        "a message of two fragments that is longer",
        &[
            (b"\x01\xfe\xff\xff\0\0\0\0", 1),
            (b"a", 65_535),
            (b"\x80\x82\0\0\0\0aa", 1),
        ],
        &[100_000],
        &[],
        Ending::Refused(CloseCode::Size),
        b"\x88\x02\x03\xf1",
    ),
];

/// Whether the messages of a stream are these lines, and end so.
fn is_heard(
    alloc: Global,
    reader: &mut MessageLines<Wire>,
    lines: &[u8],
    ending: Ending,
) -> Result<bool, Fail> {
    let found = all_of(alloc, reader)?;
    Ok(found.as_slice() == lines && reader.ending() == ending)
}

/// Whether that is so of a row's frames at this size, and this is sent.
fn is_so(alloc: Global, row: &Row, size: usize) -> Result<bool, Fail> {
    let (_, parts, _, lines, ending, sent) = row;
    let lines = made(alloc, lines)?;
    let wire = late(alloc, &made(alloc, parts)?, size, NEVER)?;
    let mut reader = MessageLines::new(alloc, wire);
    let is_heard = is_heard(alloc, &mut reader, &lines, *ending);
    let wire = reader.into_inner();
    Ok(is_heard? && wire.told.as_slice() == *sent)
}

#[test]
fn lines_are_those_of_the_messages(rt: HostRuntime) -> Result<(), Fail> {
    for row in &ROWS {
        for size in row.2.iter() {
            judged(&rt, row.0, is_so(rt.alloc(), row, *size))?;
        }
    }
    Ok(())
}

/// How many reads have to wait before one gives a `d`; 0 where none does.
fn waits(reader: &mut MessageLines<Wire>) -> usize {
    let mut piece = [0; 8];
    for turn in 0..100 {
        if reader.read(&mut piece).is_ok() {
            return if piece[0] == b'd' { turn } else { 0 };
        }
    }
    0
}

/// Whether a reply that the stream takes late is sent before the line behind it is handed on.
fn is_reply_whole(alloc: Global) -> Result<bool, Fail> {
    let frames = b"\x89\x83\0\0\0\0abc\x81\x81\0\0\0\0d";
    let wire = late(alloc, frames, 2, ONE_WAIT)?;
    let mut reader = MessageLines::new(alloc, wire);
    let is_late = waits(&mut reader) > 1;
    let wire = reader.into_inner();
    Ok(is_late && wire.told.as_slice() == b"\x8a\x03abc".as_slice())
}

#[test]
fn a_reply_is_whole_before_the_next_line_is_handed_on(rt: HostRuntime) -> Result<(), Fail> {
    judged(&rt, "the reply", is_reply_whole(rt.alloc()))
}
