//! What a session writes to a WebSocket.
ghost use Rattle.std.specs.Prelude.{◌≡◌, ◌==◌, ◌++◌, [], Some, None, IfOk, OnOk, OnErr, length, take};
ghost use Rattle.std.specs.Io.{WritesAtMost};
ghost use Rattle.std.specs.List.{position, position_or_len};
ghost use Rattle.tungstenite.specs.Socket.{Flushed, IsFresh, Writes};
ghost use Rattle.web_lines.specs.Answering.{SendsLine, Takes};
ghost use Rattle.websocket.specs.Connection.{close_step};
ghost use Rattle.websocket.specs.declared.protocol.config.Role.TheVariants.{Server};

use crate::connection::{io_error, send_close, send_text, server};
use std::alloc::Global;
use std::io;
use std::io::{ErrorKind, Read, Write};
use std::marker::Model;
use tungstenite::{CloseCode, CloseFrame, NoMask, Utf8Bytes, WebSocket};

/// Each line that is written goes out as one text message, without its line feed, and nothing of it
/// before the line feed. What the stream doesn't take at once waits for the next flush, which tells
/// why: the line is not to be written again.
///
/// A write takes what comes before the next line feed, or that line feed alone. It fails, and takes
/// nothing, with `OutOfMemory`, with `InvalidData` for a line that isn't UTF-8, and with
/// `NotConnected` after a close.
#[derive(Debug, Drop)]
pub struct AnswerMessages<S> {
    alloc: Global,
    /// Nothing is read by it.
    socket: WebSocket<S, NoMask>,
    /// What was written of a line so far.
    gathered: Vec<u8>,
}

/// Contracts see the socket and the bytes that were gathered.
impl<S> Model for AnswerMessages<S> {
    ghost use Rattle.web_lines.specs.Answering.{Answering, answering_code};

    ghost Value = { Answering S };

    ghost coded = { answering_code S.code };

    ghost view = { λ a. record { socket = a.socket; gathered = a.gathered.items } };
}

impl<S: Read + Write + Drop> AnswerMessages<S> {
    /// Answers over a stream whose handshake is done.
    pub fn new(alloc: Global, stream: S) -> AnswerMessages<S>
        ensures fresh { IsFresh result.socket stream Server }
        ensures gathered { result.gathered ≡ [] }
    {
        AnswerMessages {
            alloc,
            socket: server(alloc, stream),
            gathered: Vec::new(alloc),
        }
    }

    /// Closes the connection from this end; a line without its line feed is never sent. Not after
    /// the reader ended by a close or a refusal, for a close went out then. It fails as the stream
    /// does, and the next call or flush goes on; with `OutOfMemory`; or with `InvalidInput` for a
    /// reason of over 123 bytes or a code that no close may have.
    pub fn close(&mut self, code: CloseCode, reason: &str) -> io::Result<()>
        ensures closed { OnOk result (Writes S.contents self.old.socket self.new.socket
            (close_step self.old.socket.conn (Some (code, reason.now)))) }
        ensures empty { OnOk result (self.new.socket.output ≡ []) }
        ensures gathered { self.new.gathered ≡ self.old.gathered }
    {
        let reason = Utf8Bytes::copy_from_str(self.alloc, reason)?;
        send_close(&mut self.socket, CloseFrame { code, reason })
    }

    /// The stream. A line that has no line feed yet is lost, and so is what the stream didn't take.
    pub fn into_inner(self) -> S
        ensures { result ≡ self.socket.stream }
    {
        self.socket.into_inner()
    }

    /// What was written of a line so far.
    pub fn unsent(&self) -> &[u8]
        ensures { result.now ≡ self.now.gathered }
    {
        &self.gathered
    }

    /// Takes bytes of a line.
    fn gather(&mut self, bytes: &[u8]) -> io::Result<usize>
        ensures count { IfOk result (λ count. count ≡ length bytes.now) }
        ensures ok { OnOk result (self.new ≡ record self.old {
          gathered = self.old.gathered ++ bytes.now;
        }) }
        ensures err { OnErr result (self.new ≡ self.old) }
    {
        self.gathered.extend_from_slice(bytes)?;
        Ok(bytes.len())
    }

    /// Takes the line feed: the line goes out, or waits if the stream fails.
    fn send_line(&mut self) -> io::Result<usize>
        ensures count { IfOk result (λ count. count ≡ 1) }
        ensures ok { OnOk result (SendsLine S.contents self.old self.new) }
        ensures err { OnErr result (self.new ≡ self.old) }
    {
        let Ok(line) = str::from_utf8(&self.gathered) else {
            return Err(io::Error::from(ErrorKind::InvalidData));
        };
        send_text(&mut self.socket, self.alloc, line)?;
        self.gathered.clear();
        Ok(1)
    }
}

impl<S: Read + Write + Drop> Write for AnswerMessages<S> {
    fn write(&mut self, buf: &[u8]) -> io::Result<usize>
        ensures bound { WritesAtMost result buf.now }
        ensures taken { IfOk result
            (λ count. Takes S.contents self.old (take count buf.now) self.new) }
        ensures err { OnErr result (self.new ≡ self.old) }
    {
        let end = line_part(buf);
        if end == 0 && !buf.is_empty() {
            return self.send_line();
        }
        self.gather(&buf[..end])
    }

    fn flush(&mut self) -> io::Result<()>
        ensures flushed { Flushed S.contents self.old.socket self.new.socket }
        ensures empty { OnOk result (self.new.socket.output ≡ []) }
        ensures gathered { self.new.gathered ≡ self.old.gathered }
    {
        self.socket.flush().map_err(io_error)
    }
}

/// How many bytes come before the first line feed, or in all.
fn line_part(bytes: &[u8]) -> usize
    ensures { result ≡ position_or_len (λ byte. byte == 10) bytes.now }
{
    match first_feed(bytes) {
        Some(end) => end,
        None => bytes.len(),
    }
}

/// Where the first line feed is.
fn first_feed(bytes: &[u8]) -> Option<usize>
    ensures { result ≡ position (λ byte. byte == 10) bytes.now }
{
    bytes.iter().position(|byte| *byte == b'\n')
}
