//! A reader that ends where the first line asks to be told of changes.

use crate::watch_front::WatchFront;
use session_lines::Watching;
use std::alloc::Global;
use std::io::Read;
use std::{io, mem};

/// A reader that ends where its first line asks to be told of changes: nothing is handed on then,
/// so no line is served. Anything else is handed on byte for byte. The first line is held back
/// until it is whole, or longer than such a request is: no line is served sooner than that, so
/// nobody waits longer.
#[derive(Drop)]
pub struct FirstWatch<S: Read> {
    reader: S,
    first: WatchFront,
    look: Look,
}

/// What the first line was found to be.
#[derive(Drop)]
enum Look {
    /// It isn't there yet.
    NotYet,
    /// A request to be told of changes.
    Watch(Watch),
    /// Such a request, of which somebody else takes care.
    Taken,
    /// Anything else, or there was no memory to read it.
    Other,
}

/// A request to be told of changes.
#[derive(Debug, Drop)]
pub struct Watch {
    pub watching: Watching,
    /// Whether more came right after it: that ends it.
    pub is_followed: bool,
}

impl<S: Read> FirstWatch<S> {
    /// A reader of which nothing was read so far.
    pub fn new(alloc: Global, reader: S) -> FirstWatch<S> {
        FirstWatch {
            reader,
            first: WatchFront::new(alloc),
            look: Look::NotYet,
        }
    }

    /// Whether the reader ended because its first line asks to be told of changes.
    pub fn is_watch(&self) -> bool {
        matches!(self.look, Look::Watch(_) | Look::Taken)
    }

    /// What was asked, the first time after the reader ended for that.
    pub fn take_watch(&mut self) -> Option<Watch> {
        if !self.is_watch() {
            return None;
        }
        match mem::replace(&mut self.look, Look::Taken) {
            Look::Watch(watch) => Some(watch),
            Look::NotYet | Look::Taken | Look::Other => None,
        }
    }

    /// The reader of what comes after the request.
    pub fn rest(&mut self) -> &mut S {
        &mut self.reader
    }

    /// Looks what the first line is, once it was read.
    fn look(&mut self) -> io::Result<()> {
        if !matches!(self.look, Look::NotYet) {
            return Ok(());
        }
        self.first.wait_for(&mut self.reader)?;
        self.look = match self.first.watched() {
            Some(watching) => {
                let is_followed = self.first.is_followed();
                self.first.clear();
                Look::Watch(Watch {
                    watching,
                    is_followed,
                })
            }
            None => Look::Other,
        };
        Ok(())
    }
}

impl<S: Read> Read for FirstWatch<S> {
    fn read(&mut self, buf: &mut [u8]) -> io::Result<usize> {
        self.look()?;
        if self.is_watch() {
            return Ok(0);
        }
        if self.first.is_handed_on() {
            return self.reader.read(buf);
        }
        self.first.read(buf)
    }
}
