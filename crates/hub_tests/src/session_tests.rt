//! Sessions over bytes in memory, cut in many ways.
use session_lines::{Answer, Command, Refusal};
use session_threads::{Desk, Session, SessionFault};
use std::alloc::Global;
use std::io;
use std::io::{ErrorKind, Read, Write};
use std::process::Abort;
use std::test::Fail;

/// Counts what it is asked. To a text it answers that number, to an edit that it is stopping.
#[derive(Drop)]
struct Counter {
    asked: u64,
}

impl Desk for Counter {
    ghost use Rattle.std.specs.Prelude.{◌≤◌};

    ghost serves = { λ old _ _ new. old.asked ≤ new.asked };

    fn line_read(&mut self) {}

    fn serve(&mut self, _alloc: Global, command: Command) -> Answer {
        self.asked = self.asked.saturating_add(1);
        match command {
            Command::Edit(_) => Answer::Refused(Refusal::Stopping),
            Command::Text { doc, .. } => Answer::Edited { rev: doc as u64 },
            Command::Spans { .. }
            | Command::Versions { .. }
            | Command::Changes { .. }
            | Command::Anchors { .. }
            | Command::Places { .. }
            | Command::Find { .. }
            | Command::Export { .. } => Answer::Done,
            Command::Status | Command::Peers | Command::Documents | Command::Room => {
                Answer::Edited { rev: self.asked }
            }
            Command::Stop => Answer::Stopped,
        }
    }
}

/// Gives at most `most` bytes at a time, is interrupted before each, and fails in place of an end
/// if it is told to.
#[derive(Drop)]
struct CutInput<'a> {
    rest: &'a [u8],
    most: usize,
    is_interrupted: bool,
    is_failing: bool,
}

impl<'a> Read for CutInput<'a> {
    fn read(&mut self, buf: &mut [u8]) -> io::Result<usize> {
        self.is_interrupted = !self.is_interrupted;
        if self.is_interrupted {
            return Err(io::Error::new(ErrorKind::Interrupted, "a signal"));
        }
        if self.rest.is_empty() && self.is_failing {
            return Err(io::Error::other("the input broke"));
        }
        let count = self.rest.len().min(self.most).min(buf.len());
        let (first, rest) = self.rest.split_at(count);
        for (to, from) in buf.iter_mut().zip(first) {
            *to = *from;
        }
        self.rest = rest;
        Ok(count)
    }
}

/// Takes `room` bytes, a few at a time, and then fails.
#[derive(Drop)]
struct Sink {
    taken: Vec<u8>,
    room: usize,
}

impl Write for Sink {
    fn write(&mut self, buf: &[u8]) -> io::Result<usize> {
        let count = buf.len().min(7).min(self.room);
        if count == 0 && !buf.is_empty() {
            return Err(io::Error::other("the output broke"));
        }
        self.taken.extend_from_slice(&buf[..count])?;
        self.room -= count;
        Ok(count)
    }

    fn flush(&mut self) -> io::Result<()> {
        Ok(())
    }
}

/// How a session has to end: the number of its fault or 0, what it has written, and how often its
/// desk was asked.
type Ending = (u8, &'static str, u64);

/// Whether a session ends so, over a writer that takes `room` bytes.
fn ends(alloc: Global, reader: CutInput<'_>, room: usize, wanted: &Ending) -> bool {
    let (number, text, asked) = *wanted;
    let mut desk = Counter { asked: 0 };
    let taken = Vec::new(alloc);
    let mut session = Session::new(reader, Sink { taken, room });
    let found = match session.serve(alloc, &mut desk) {
        Ok(()) => 0,
        Err(fault) => fault.number(),
    };
    found == number && session.writer.taken.as_slice() == text.as_bytes() && desk.asked == asked
}

fn cut(rest: &[u8], most: usize) -> CutInput<'_> {
    CutInput {
        rest,
        most,
        is_interrupted: false,
        is_failing: false,
    }
}

/// What is shown: of so many spaces and the bytes behind them, how a session over these ends,
/// whatever the pieces that it reads them in.
type Case = (&'static str, usize, &'static [u8], Ending);

/// The size of the first pieces in which a session doesn't end as a case says, or 0.
fn wrong_size(alloc: Global, case: &Case) -> Option<usize> {
    let (_, spaces, last, wanted) = case;
    let mut input = vec![in alloc; b' '; *spaces].ok()?;
    input.extend_from_slice(last).ok()?;
    for most in [1, 2, 3, 7, 4_095, 4_096, 100_000] {
        if !ends(alloc, cut(&input, most), usize::MAX, wanted) {
            return Some(most);
        }
    }
    Some(0)
}

/// Serves each of the cases in pieces of many sizes.
fn serves(rt: &(impl Abort + AllocGlobal), cases: &[Case]) {
    for case in cases {
        assert_eq!(rt; wrong_size(rt.alloc(), case), Some(0), "{}", case.0);
    }
}

/// How a session ends that refuses one line as too long, and then answers one.
const TOO_LONG: Ending = (
    0,
    "{\"code\":11,\"error\":\"line\",\"ok\":false}\n{\"ok\":true,\"rev\":1}\n",
    1,
);

static CASES: [Case; 10] = [
    (
        "each line is answered in turn",
        0,
        b"{\"op\":\"text\",\"doc\":9}\n\
          {\"op\":\"stop\"}\n\
          {\"op\":\"insert\",\"doc\":1,\"at\":0,\"text\":\"a\"}\n\
          {\"op\":\"status\"}\n",
        (
            0,
            "{\"ok\":true,\"rev\":9}\n\
              {\"ok\":true}\n\
              {\"code\":12,\"error\":\"stopping\",\"ok\":false}\n\
              {\"ok\":true,\"rev\":4}\n",
            4,
        ),
    ),
    ("each line is answered in turn", 0, b"", (0, "", 0)),
    (
        "what is no command never reaches the desk",
        0,
        b"[\n\n\xff\n{\"op\":\"fly\"}\n7\n{\"op\":\"text\",\"doc\":0}\n{\"op\":\"status\"}\n",
        (
            0,
            "{\"code\":2,\"error\":\"syntax\",\"ok\":false}\n\
          {\"code\":2,\"error\":\"syntax\",\"ok\":false}\n\
          {\"code\":2,\"error\":\"syntax\",\"ok\":false}\n\
          {\"code\":3,\"error\":\"request\",\"ok\":false}\n\
          {\"code\":3,\"error\":\"request\",\"ok\":false}\n\
          {\"code\":4,\"error\":\"field\",\"ok\":false}\n\
          {\"ok\":true,\"rev\":1}\n",
            1,
        ),
    ),
    (
        "a rest without line feed is no request",
        0,
        b"{\"op\":\"status\"}\n{\"op\":\"status\"}",
        (0, "{\"ok\":true,\"rev\":1}\n", 1),
    ),
    (
        "a rest without line feed is no request",
        0,
        b"{\"op\":\"status\"}",
        (0, "", 0),
    ),
    (
        "a line that is too long is refused once",
        65_537,
        b"\n{\"op\":\"status\"}\n",
        TOO_LONG,
    ),
    (
        "a line that is too long is refused once",
        200_000,
        b"\n{\"op\":\"status\"}\n",
        TOO_LONG,
    ),
    (
        "a line that is too long is refused once",
        65_536,
        b"\n{\"op\":\"status\"}\n",
        (
            0,
            "{\"code\":2,\"error\":\"syntax\",\"ok\":false}\n{\"ok\":true,\"rev\":1}\n",
            1,
        ),
    ),
    (
        "a line that is too long is refused once",
        65_521,
        b"{\"op\":\"status\"}\n",
        (0, "{\"ok\":true,\"rev\":1}\n", 1),
    ),
    (
        "a line that is too long is refused once",
        100_000,
        b"",
        (0, "", 0),
    ),
];

#[test]
fn lines_are_answered_in_whatever_pieces_they_come(rt: HostRuntime) {
    serves(&rt, &CASES);
}

static READ_FAILS: Ending = (71, "{\"ok\":true,\"rev\":1}\n{\"ok\":true}\n", 2);

#[test]
fn a_failed_read_ends_the_session_after_its_lines(rt: HostRuntime) {
    let mut reader = cut(b"{\"op\":\"status\"}\n{\"op\":\"stop\"}\n{\"op\":", 5);
    reader.is_failing = true;
    assert!(rt; ends(rt.alloc(), reader, usize::MAX, &READ_FAILS));
}

static WRITE_FAILS: Ending = (71, "{\"ok\":true,\"rev\":1}\n{\"ok\":true", 2);

#[test]
fn a_failed_write_ends_the_session_at_its_line(rt: HostRuntime) {
    let input = b"{\"op\":\"status\"}\n{\"op\":\"status\"}\n{\"op\":\"status\"}\n";
    assert!(rt; ends(rt.alloc(), cut(input, 4_096), 30, &WRITE_FAILS));
}

#[test]
fn a_fault_says_what_it_is(rt: HostRuntime) -> Result<(), Fail> {
    let alloc = rt.alloc();
    assert_eq!(rt; SessionFault::Memory.number(), 1);
    assert_eq!(rt; SessionFault::Memory.to_string(alloc)?.as_str(), "memory");
    let fault = SessionFault::Stream(io::Error::other("broke"));
    assert_eq!(rt; fault.to_string(alloc)?.as_str(), "stream");
    Ok(())
}
