//! The first line of a session, where it may ask to be told of changes.

use session_lines::{Watching, watch_line};
use std::alloc::Global;
use std::io;
use std::io::Read;

/// As many bytes as a session reads at once: so what came in one piece is still served in one, also
/// if the daemon is about to end.
const PIECE: usize = 4_096;

/// The bytes of the longest first line that is held: 1,024 numbers of documents fit in, of ten
/// digits each, with a comma and some spaces. A longer line is no request to be told of changes.
const ROOM: usize = 16_384;

/// What was read of a session before it is served: nothing, or its first line and perhaps more. As
/// a reader it hands that on. It takes the memory that this needs, a piece at a time, and lets go
/// of it once all was handed on; if there is none, it reads no more.
#[derive(Drop)]
pub(crate) struct WatchFront {
    alloc: Global,
    bytes: Vec<u8>,
    /// How many of them were handed on.
    given: usize,
    /// How many bytes the first line has, once it is there.
    line: Option<usize>,
}

impl WatchFront {
    /// Nothing was read.
    pub(crate) fn new(alloc: Global) -> WatchFront {
        WatchFront {
            alloc,
            bytes: Vec::new(alloc),
            given: 0,
            line: None,
        }
    }

    /// Reads until a line is there, for as long as the reader waits; not to its end where it is too
    /// long, there is no memory for it, or the reader ends. After an error, as that of a reader
    /// whose time is over, what came before it is there, and the next call goes on after that.
    pub(crate) fn wait_for<S: Read>(&mut self, reader: &mut S) -> io::Result<()> {
        // A read that isn't the last one gives a byte at least.
        for _ in 0..ROOM {
            if self.is_enough() || self.read_once(reader)? == 0 {
                return Ok(());
            }
        }
        Ok(())
    }

    /// Whether a line is there, or no room for more of it.
    fn is_enough(&mut self) -> bool {
        self.line.is_some() || self.bytes.len() >= ROOM || self.bytes.reserve(PIECE).is_err()
    }

    /// Reads a piece, for which there is room, after what is there.
    fn read_once<S: Read>(&mut self, reader: &mut S) -> io::Result<usize> {
        let before = self.bytes.len();
        let free = ROOM.saturating_sub(before).min(PIECE);
        let mut piece = [0; PIECE];
        let count = reader.read(&mut piece[..free])?;
        let read = &piece[..count];
        self.bytes.extend_from_slice(read)?;
        if let Some(at) = read.iter().position(|byte| *byte == b'\n') {
            self.line = Some(before + at);
        }
        Ok(count)
    }

    /// The documents of whose changes the first line asks to be told, if it does.
    pub(crate) fn watched(&self) -> Option<Watching> {
        let line = self.bytes.get(..self.line?)?;
        watch_line(self.alloc, line).ok()
    }

    /// Whether more was read than the first line.
    pub(crate) fn is_followed(&self) -> bool {
        match self.line {
            Some(count) => self.bytes.len().saturating_sub(count) > 1,
            None => false,
        }
    }

    /// Lets go of all that was read, and of its memory.
    pub(crate) fn clear(&mut self) {
        self.bytes = Vec::new(self.alloc);
        self.given = 0;
        self.line = None;
    }

    /// Whether all that was read was handed on.
    pub(crate) fn is_handed_on(&self) -> bool {
        self.given == self.bytes.len()
    }
}

impl Read for WatchFront {
    fn read(&mut self, buf: &mut [u8]) -> io::Result<usize> {
        let Some(rest) = self.bytes.get(self.given..) else {
            return Ok(0);
        };
        let count = buf.len().min(rest.len());
        buf[..count].copy_from_slice(&rest[..count]);
        self.given += count;
        if self.is_handed_on() {
            self.clear();
        }
        Ok(count)
    }
}
