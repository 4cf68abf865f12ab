//! Whether a session that is told of changes is still to be told.

use first_bytes::has_to_wait;
use shared_desk::Ending;
use std::io::Read;
use std::net::TcpStream;
use std::rt::Clock;
use std::sync::Wait;
use std::time::Duration;

/// How long one wait for a change takes at most, in milliseconds: after each it is looked whether
/// somebody is still to be told.
const PATIENCE: u64 = 200;

/// How long to wait for a change: not at all if it is looked for the last time.
pub(crate) fn patience(is_over: bool) -> Duration {
    Duration::from_millis(if is_over { 0 } else { PATIENCE })
}

/// By what the end of a watch is found: the session's connection and input, and the daemon's end.
#[derive(Drop)]
pub(crate) struct Still<'a, R: Wait + Clock, S: Read> {
    pub rt: &'a R,
    pub ending: &'a Ending,
    pub stream: &'a TcpStream,
    pub reader: &'a mut S,
}

impl<'a, R: Wait + Clock, S: Read> Still<'a, R, S> {
    /// Whether the daemon was asked to end, or the session's input isn't still as it was.
    pub(crate) fn has_to_end(&mut self) -> bool {
        self.ending.is_asked(self.rt) || !is_silent(self.stream, self.reader)
    }
}

/// Whether a connection goes on, and no line comes over it. It doesn't wait for anything.
fn is_silent<S: Read>(stream: &TcpStream, reader: &mut S) -> bool {
    if stream.set_nonblocking(true).is_err() {
        return false;
    }
    let read = reader.read(&mut [0]);
    // The lines are to be written with all the time that the other end takes.
    if stream.set_nonblocking(false).is_err() {
        return false;
    }
    match read {
        Ok(_) => false,
        Err(error) => has_to_wait(error.kind()),
    }
}
