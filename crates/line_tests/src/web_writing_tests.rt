//! The answers of a session over a WebSocket, which it gives by `Write`.
use crate::rows::judged;
use crate::web_tests::{ONE_WAIT, SIZES, late};
use crate::wires::{Faults, NEVER, Wire};
use std::alloc::Global;
use std::io::Write;
use std::test::Fail;
use tungstenite::CloseCode;
use web_lines::AnswerMessages;

/// What is done with a writer.
#[derive(Clone, Copy)]
enum Step {
    /// This is written.
    Takes(&'static [u8]),
    /// A write of this fails.
    Refuses(&'static [u8]),
    Flushes,
    /// It is closed for this reason.
    Closes(&'static str),
    /// This isn't sent yet.
    Keeps(&'static [u8]),
}

/// Whether a step goes as it has to.
fn goes(writer: &mut AnswerMessages<Wire>, step: Step) -> bool {
    match step {
        Step::Takes(bytes) => writer.write_all(bytes).is_ok(),
        Step::Refuses(bytes) => writer.write_all(bytes).is_err(),
        Step::Flushes => writer.flush().is_ok(),
        Step::Closes(reason) => writer.close(CloseCode::Away, reason).is_ok(),
        Step::Keeps(bytes) => writer.unsent() == bytes,
    }
}

/// What a row shows, what is done with a writer, how many bytes the stream takes at a time, which
/// writes fail, and what is sent.
type Row = (
    &'static str,
    &'static [Step],
    &'static [usize],
    Faults,
    &'static [u8],
);

static ROWS: [Row; 8] = [
    (
        "a line in pieces",
        &[
            Step::Takes(b"ab"),
            Step::Takes(b""),
            Step::Takes(b"c"),
            Step::Takes(b"\n"),
        ],
        &SIZES,
        NEVER,
        b"\x81\x03abc",
    ),
    (
        "two lines at once",
        &[Step::Takes(b"x\ny\n")],
        &SIZES,
        NEVER,
        b"\x81\x01x\x81\x01y",
    ),
    (
        "an empty line",
        &[Step::Takes(b"\n")],
        &SIZES,
        NEVER,
        b"\x81\x00",
    ),
    (
        "a line that isn't whole",
        &[Step::Takes(b"a\nb"), Step::Takes(b"c")],
        &SIZES,
        NEVER,
        b"\x81\x01a",
    ),
    (
        "a character of two bytes",
        &[Step::Takes(b"\xc3\xa9\n")],
        &SIZES,
        NEVER,
        b"\x81\x02\xc3\xa9",
    ),
    (
        "a line that the stream takes late goes out once",
        &[
            Step::Takes(b"abc\n"),
            Step::Flushes,
            Step::Takes(b"d\n"),
            Step::Flushes,
        ],
        &[2],
        ONE_WAIT,
        b"\x81\x03abc\x81\x01d",
    ),
    (
        "nothing is written after a close",
        &[
            Step::Takes(b"a\nrest"),
            Step::Keeps(b"rest"),
            Step::Closes("bye"),
            Step::Refuses(b"\n"),
            Step::Closes("again"),
        ],
        &[9],
        NEVER,
        b"\x81\x01a\x88\x05\x03\xe9bye",
    ),
    (
        "a line that isn't UTF-8",
        &[Step::Refuses(b"\xff\n")],
        &[9],
        NEVER,
        b"",
    ),
];

/// Whether all steps go as they have to.
fn all_go(writer: &mut AnswerMessages<Wire>, steps: &[Step]) -> bool {
    for step in steps {
        if !goes(writer, *step) {
            return false;
        }
    }
    true
}

/// Whether that is so of a row at this size, and this is sent.
fn is_so(alloc: Global, row: &Row, size: usize) -> Result<bool, Fail> {
    let (_, steps, _, writes, sent) = row;
    let wire = late(alloc, b"", size, *writes)?;
    let mut writer = AnswerMessages::new(alloc, wire);
    let is_right = all_go(&mut writer, steps);
    let wire = writer.into_inner();
    Ok(is_right && wire.told.as_slice() == *sent)
}

#[test]
fn each_line_is_one_message(rt: HostRuntime) -> Result<(), Fail> {
    for row in &ROWS {
        for size in row.2.iter() {
            judged(&rt, row.0, is_so(rt.alloc(), row, *size))?;
        }
    }
    Ok(())
}
