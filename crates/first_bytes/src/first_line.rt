//! The first line of a session, where it is looked at before the session is served.

use session_lines::{Command, read_command};
use std::alloc::Global;
use std::io;
use std::io::Read;
use std::marker::Model;

/// As many bytes as a session reads at once: so what came in one piece is still served in one, also
/// if the daemon is about to end. A longer line is no request for the status or a stop here.
const ROOM: usize = 4_096;

/// What was read of a session before it is served: nothing, or its first line and perhaps more. As
/// a reader it hands that on.
#[derive(Drop)]
pub struct FirstLine {
    bytes: [u8; ROOM],
    /// How many of them were handed on.
    given: usize,
    count: usize,
}

/// Contracts see how many bytes were read.
impl Model for FirstLine {
    ghost use Rattle.std.specs.Prelude.{ℕ, ◌≤◌};
    ghost use Rattle.first_bytes.specs.declared.first_line.TheConstants.{ROOM};

    ghost Value = { ℕ };

    ghost view = { λ first. first.count };

    ghost invariant = { λ first. (first.given ≤ first.count) × (first.count ≤ ROOM) };
}

impl FirstLine {
    /// Nothing was read.
    pub fn new() -> FirstLine {
        FirstLine {
            bytes: [0; ROOM],
            given: 0,
            count: 0,
        }
    }

    /// Reads until a line is there, for as long as the reader waits; not to its end where it is too
    /// long or the reader ends. After an error, as that of a reader whose time is over, what came
    /// before it is there, and the next call goes on behind that.
    pub fn wait_for<S: Read>(&mut self, reader: &mut S) -> io::Result<()> {
        // A read that isn't the last one gives a byte at least.
        for _ in 0..ROOM {
            if self.is_enough() || self.read_once(reader)? == 0 {
                return Ok(());
            }
        }
        Ok(())
    }

    /// Whether a line is there, or no room for more of it.
    fn is_enough(&self) -> bool {
        self.count == ROOM || self.line().is_some()
    }

    /// Reads once, behind what is there.
    fn read_once<S: Read>(&mut self, reader: &mut S) -> io::Result<usize> {
        let count = reader.read(&mut self.bytes[self.count..])?;
        self.count += count;
        Ok(count)
    }

    /// What was read, and not handed on.
    pub fn as_slice(&self) -> &[u8] {
        &self.bytes[self.given..self.count]
    }

    /// The first line, where it is there, without its line feed.
    fn line(&self) -> Option<&[u8]> {
        let read = self.as_slice();
        let end = read.iter().position(|byte| *byte == b'\n')?;
        Some(&read[..end])
    }

    /// Whether it asks for the status or a stop.
    pub fn asks_for_status_or_stop(&self, alloc: Global) -> bool {
        match self.line() {
            Some(line) => matches!(
                read_command(alloc, line),
                Ok(Command::Status | Command::Stop)
            ),
            None => false,
        }
    }
}

impl Read for FirstLine {
    fn read(&mut self, buf: &mut [u8]) -> io::Result<usize> {
        let count = buf.len().min(self.count - self.given);
        let end = self.given + count;
        buf[..count].copy_from_slice(&self.bytes[self.given..end]);
        self.given = end;
        Ok(count)
    }
}
