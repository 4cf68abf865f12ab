//! What a session is told that watches a document.
use crate::rows::{is_found, judged, shown};
use crate::wires::{Faults, Wire};
use session_lines::{Refusal, watch_line};
use std::alloc::{AllocError, Global};
use std::io::ErrorKind;
use std::test::Fail;
use watch_lines::{LineRoom, Next, Source, serve_watch};

/// Gives these, and then the end.
#[derive(Drop)]
struct Given<'a> {
    rest: &'a [Next],
}

impl<'a> Source for Given<'a> {
    ghost use Rattle.std.specs.Prelude.{⊤};

    ghost gives = { λ _ _ _. ⊤ };

    fn next(&mut self, _told: Option<u64>) -> Next {
        match self.rest.split_first() {
            Some((first, rest)) => {
                self.rest = rest;
                *first
            }
            None => Next::Closed,
        }
    }
}

/// A writer that takes so many writes, and keeps what they write.
pub fn taking(alloc: Global, writes: usize) -> Result<Wire, AllocError> {
    let mut writer = Wire::new(alloc, b"", 0)?;
    writer.writes = Faults {
        kind: ErrorKind::BrokenPipe,
        left: writes,
        again: 0,
    };
    Ok(writer)
}

/// What a source gives, how many writes are taken, and what is said then.
static TOLD: [(&[Next], usize, &str); 6] = [
    (&[], 9, ""),
    (&[Next::Rev(0)], 9, "{\"ok\":true,\"rev\":0}\n"),
    (
        &[
            Next::Rev(3),
            Next::Quiet,
            Next::Rev(3),
            Next::Rev(2),
            Next::Rev(7),
        ],
        9,
        "{\"ok\":true,\"rev\":3}\n{\"ok\":true,\"rev\":7}\n",
    ),
    (
        &[Next::Rev(3), Next::Failed, Next::Rev(4)],
        9,
        "{\"ok\":true,\"rev\":3}\n{\"code\":9,\"error\":\"failed\",\"ok\":false}\n",
    ),
    (&[Next::Quiet, Next::Closed, Next::Rev(4)], 9, ""),
    (
        &[Next::Rev(1), Next::Rev(2), Next::Rev(3)],
        1,
        "{\"ok\":true,\"rev\":1}\n",
    ),
];

/// Whether this is told while so many writes are taken, and the end is an error after one write.
fn is_told(alloc: Global, rest: &[Next], writes: usize, said: &str) -> Result<bool, Fail> {
    let mut room = LineRoom::new(alloc)?;
    let mut writer = taking(alloc, writes)?;
    let done = serve_watch(alloc, &mut room, &mut writer, &mut Given { rest });
    Ok(done.is_ok() == (writes > 1) && writer.told.as_slice() == said.as_bytes())
}

#[test]
fn a_number_is_told_once_it_rises_and_none_after_a_failed_write(
    rt: HostRuntime,
) -> Result<(), Fail> {
    for (rest, writes, said) in &TOLD {
        judged(&rt, said, is_told(rt.alloc(), rest, *writes, said))?;
    }
    Ok(())
}

/// A line, and the documents that it watches or why it is refused.
static LINES: [(&[u8], Result<&str, Refusal>); 22] = [
    (
        b"{\"op\":\"watch\",\"doc\":4294967295}",
        Ok("One(4294967295)"),
    ),
    (b"{\"op\":\"watch\"", Err(Refusal::Syntax)),
    (b"{\"op\":\"text\",\"doc\":1}", Err(Refusal::Request)),
    (b"{\"op\":\"text\",\"docs\":[1]}", Err(Refusal::Request)),
    (b"{\"op\":\"watch\"}", Err(Refusal::Field)),
    (b"{\"op\":\"watch\",\"doc\":0}", Err(Refusal::Field)),
    (
        b"{\"op\":\"watch\",\"doc\":4294967296}",
        Err(Refusal::Field),
    ),
    (
        b"{\"op\":\"watch\",\"doc\":1,\"at\":0}",
        Err(Refusal::Field),
    ),
    (b"{\"op\":\"watch\",\"doc\":[1]}", Err(Refusal::Field)),
    (
        b"{\"op\":\"watch\",\"docs\":[1]}",
        Ok("These(Numbers { numbers: [1] })"),
    ),
    (
        b"{\"docs\":[7,4294967295,7],\"op\":\"watch\"}",
        Ok("These(Numbers { numbers: [7, 4294967295, 7] })"),
    ),
    (b"{\"op\":\"watch\",\"docs\":\"all\"}", Ok("All")),
    (b"{\"op\":\"watch\",\"docs\":\"ALL\"}", Err(Refusal::Field)),
    (b"{\"op\":\"watch\",\"docs\":\"\"}", Err(Refusal::Field)),
    (b"{\"op\":\"watch\",\"docs\":[]}", Err(Refusal::Field)),
    (b"{\"op\":\"watch\",\"docs\":[1,0]}", Err(Refusal::Field)),
    (
        b"{\"op\":\"watch\",\"docs\":[1,\"2\"]}",
        Err(Refusal::Field),
    ),
    (b"{\"op\":\"watch\",\"docs\":[1.0]}", Err(Refusal::Field)),
    (b"{\"op\":\"watch\",\"docs\":1}", Err(Refusal::Field)),
    (b"{\"op\":\"watch\",\"docs\":null}", Err(Refusal::Field)),
    (
        b"{\"op\":\"watch\",\"docs\":[1],\"doc\":1}",
        Err(Refusal::Field),
    ),
    (
        b"{\"op\":\"watch\",\"docs\":\"all\",\"rev\":0}",
        Err(Refusal::Field),
    ),
];

#[test]
fn a_line_that_watches_is_just_so(rt: HostRuntime) -> Result<(), Fail> {
    for (line, due) in &LINES {
        let found = watch_line(rt.alloc(), line);
        judged(&rt, shown(line), is_found(rt.alloc(), found, *due))?;
    }
    Ok(())
}
