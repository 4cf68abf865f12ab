//! Whom a session's thread serves.

use crate::busy::say_busy;
use crate::last_words::send_last_words;
use crate::timed::Timed;
use event_journal::Entrance;
use std::io::Write;
use std::net::TcpStream;
use std::rt::Clock;

/// A session's connection: what comes from it, and where the answers go.
#[derive(Drop)]
pub(crate) struct Caller<'a, R: Clock, S, W> {
    pub stream: &'a TcpStream,
    pub door: Entrance<'a>,
    /// The time of what is read by the reader.
    pub timed: &'a Timed<'a, R>,
    pub reader: S,
    pub writer: W,
}

/// Where a session's answers go, and how it is taken leave of.
pub(crate) trait Answers: Write {
    /// Answers 8.
    fn refuse(&mut self);

    /// The code with which its WebSocket is closed, of which this end ends what is still open, or
    /// doesn't.
    fn close_code(&self, is_ending: bool) -> Option<u16>;

    /// Ends a connection that was served, so that what was answered arrives. A session of a daemon
    /// that goes on has ended by itself.
    fn part(&mut self, stream: &TcpStream, is_ending: bool);
}

impl<'a> Answers for &'a TcpStream {
    fn refuse(&mut self) {
        say_busy(self);
    }

    fn close_code(&self, _is_ending: bool) -> Option<u16> {
        None
    }

    fn part(&mut self, stream: &TcpStream, is_ending: bool) {
        if is_ending {
            send_last_words(stream);
        }
    }
}
