//! The two ends of a WebSocket that a session is served over, which know whether it is closed, and
//! with which code.

use crate::busy::busy_line;
use crate::caller::Answers;
use crate::last_words::send_last_words;
use std::alloc::Global;
use std::cell::Cell;
use std::io;
use std::io::{Read, Write};
use std::net::TcpStream;
use tungstenite::CloseCode;
use web_lines::{AnswerMessages, Ending, MessageLines};

/// What stands for the code of a close that has none, and for that of a connection which ended
/// without a close (RFC 6455, section 7.4.1).
const NO_CODE: u16 = 1_005;

const NO_CLOSE: u16 = 1_006;

/// The lines of a WebSocket.
#[derive(Drop)]
pub(crate) struct WebLines<'a, S> {
    lines: MessageLines<S>,
    /// The code of the close that was sent, if one was.
    close: &'a Cell<Option<u16>>,
}

impl<'a, S: Read + Write + Drop> WebLines<'a, S> {
    /// The lines that come over a stream of which nothing was read since its handshake.
    pub(crate) fn new(alloc: Global, stream: S, close: &'a Cell<Option<u16>>) -> WebLines<'a, S> {
        WebLines {
            lines: MessageLines::new(alloc, stream),
            close,
        }
    }
}

impl<'a, S: Read + Write + Drop> Read for WebLines<'a, S> {
    fn read(&mut self, buf: &mut [u8]) -> io::Result<usize> {
        let result = self.lines.read(buf);
        match self.lines.ending() {
            Ending::Closed(Some(code)) => self.close.set(Some(u16::from(code))),
            Ending::Refused(code) => self.close.set(Some(u16::from(code))),
            Ending::Closed(None) => self.close.set(Some(NO_CODE)),
            Ending::NotYet | Ending::StreamEnded => {}
        }
        result
    }
}

/// The answers that go out over it.
#[derive(Drop)]
pub(crate) struct WebAnswers<'a, S> {
    answers: AnswerMessages<S>,
    close: &'a Cell<Option<u16>>,
}

impl<'a, S: Read + Write + Drop> WebAnswers<'a, S> {
    /// Answers over the stream from which the lines come.
    pub(crate) fn new(alloc: Global, stream: S, close: &'a Cell<Option<u16>>) -> WebAnswers<'a, S> {
        WebAnswers {
            answers: AnswerMessages::new(alloc, stream),
            close,
        }
    }
}

impl<'a, S: Read + Write + Drop> Write for WebAnswers<'a, S> {
    fn write(&mut self, buf: &[u8]) -> io::Result<usize> {
        self.answers.write(buf)
    }

    fn flush(&mut self) -> io::Result<()> {
        self.answers.flush()
    }
}

impl<'a, S: Read + Write + Drop> Answers for WebAnswers<'a, S> {
    fn refuse(&mut self) {
        let _ = self.write_all(busy_line());
        let _ = self.flush();
    }

    /// That of the close that was sent; else that of the one with which this end will end it, or
    /// what stands for none.
    fn close_code(&self, is_ending: bool) -> Option<u16> {
        match self.close.get() {
            None if is_ending => Some(u16::from(CloseCode::Away)),
            None => Some(NO_CLOSE),
            code => code,
        }
    }

    /// A message that was refused may be read in part only, so its sender is always heard out.
    fn part(&mut self, stream: &TcpStream, is_ending: bool) {
        if is_ending && self.close.get().is_none() {
            let _ = self.answers.close(CloseCode::Away, "");
        }
        send_last_words(stream);
    }
}
