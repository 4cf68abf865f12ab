//! A reader that ends once nobody is served any more.

use crate::entry::Entry;
use crate::lobby::Lobby;
use pass_books::BookNames;
use std::io;
use std::io::Read;
use std::sync::Wait;

/// A reader of a connection that ends once its lobby is closed.
#[derive(Drop)]
pub(crate) struct UntilClosed<'a, R: Wait, J: BookNames, S: Read> {
    rt: &'a R,
    lobby: &'a Lobby<J>,
    entry: Entry,
    reader: S,
}

impl<'a, R: Wait, J: BookNames, S: Read> UntilClosed<'a, R, J, S> {
    /// A reader of the connection with this entry.
    pub(crate) fn new(
        rt: &'a R,
        lobby: &'a Lobby<J>,
        entry: Entry,
        reader: S,
    ) -> UntilClosed<'a, R, J, S> {
        UntilClosed {
            rt,
            lobby,
            entry,
            reader,
        }
    }
}

impl<'a, R: Wait, J: BookNames, S: Read> Read for UntilClosed<'a, R, J, S> {
    fn read(&mut self, buf: &mut [u8]) -> io::Result<usize> {
        if !self.lobby.begin_reading(self.rt, self.entry) {
            return Ok(0);
        }
        let result = self.reader.read(buf);
        self.lobby.end_reading(self.rt, self.entry);
        result
    }
}
