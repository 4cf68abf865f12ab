//! What a session reads from a WebSocket.
ghost use Rattle.std.specs.Prelude.{◌≡◌, ◌≢◌, ◌<◌, [], Some, Ok, OnOk, false, length};
ghost use Rattle.std.specs.Io.{ReadsAtMost};
ghost use Rattle.tungstenite.specs.Socket.{Flushed, IsFresh, content_of};
ghost use Rattle.web_lines.specs.Endings.{ending_after, ending_by};
ghost use Rattle.web_lines.specs.Lines.{lines_of};
ghost use Rattle.web_lines.specs.Reading.{Notes, HandsOn, Tells};
ghost use Rattle.web_lines.specs.declared.ending.Ending.TheVariants.{NotYet};
ghost use Rattle.websocket.specs.declared.protocol.config.Role.TheVariants.{Server};

use crate::connection::{bare_close, io_error, send_close, server};
use crate::ending::Ending;
use crate::held_lines::HeldLines;
use byte_streams::endless;
use std::alloc::Global;
use std::io;
use std::io::{Read, Write};
use tungstenite::{Error, Message, NoMask, WebSocket};

/// The lines of the text messages that come over a WebSocket, in order: a line feed is added to a
/// message that ends with none, so an empty message is an empty line. It answers pings and closes,
/// and refuses what is no text; the input ends there. Each reply is out before a line that came
/// after it is handed on, so that no answer comes into the middle of a reply.
///
/// A read fails as the stream does, and the next one goes on. It fails with `OutOfMemory` if there
/// is no memory; if a message was lost for that, each later one fails with `NotConnected`.
#[derive(Debug, Drop)]
pub struct MessageLines<S> {
    socket: WebSocket<S, NoMask>,
    held: HeldLines,
    ending: Ending,
}

impl<S: Read + Write + Drop> MessageLines<S> {
    /// The lines that come over a stream of which nothing was read since its handshake. It takes no
    /// memory before the first read.
    pub fn new(alloc: Global, stream: S) -> MessageLines<S>
        ensures fresh { IsFresh result.socket stream Server }
        ensures messages { result.socket.conn.config.max_message_size ≡ Some 65_536 }
        ensures frames { result.socket.conn.config.max_frame_size ≡ Some 65_536 }
        ensures masked { result.socket.conn.config.accept_unmasked_frames ≡ false }
        ensures held { result.held ≡ [] }
        ensures ending { result.ending ≡ NotYet }
    {
        MessageLines {
            socket: server(alloc, stream),
            held: HeldLines::nothing(),
            ending: Ending::NotYet,
        }
    }

    /// Whether the connection ended, and how.
    pub fn ending(&self) -> Ending
        ensures { result ≡ self.now.ending }
    {
        self.ending
    }

    /// The stream. Lines that were not handed on are lost.
    pub fn into_inner(self) -> S
        ensures { result ≡ self.socket.stream }
    {
        self.socket.into_inner()
    }

    /// Sends what is due: replies, and the close of a connection that was refused. If that fails
    /// the next call goes on.
    fn settle(&mut self) -> io::Result<()>
        ensures held { self.new.held ≡ self.old.held }
        ensures ending { self.new.ending ≡ self.old.ending }
        ensures flushed { self.old.ending ≡ NotYet →
            Flushed S.contents self.old.socket self.new.socket }
        ensures tells { OnOk result
            (Tells S.contents self.old.ending self.old.socket self.new.socket) }
    {
        match self.ending {
            Ending::NotYet | Ending::Closed(_) => self.socket.flush().map_err(io_error),
            Ending::Refused(code) => send_close(&mut self.socket, bare_close(code)),
            Ending::StreamEnded => Ok(()),
        }
    }

    /// Reads the next message and holds its lines, or notes how the connection ended.
    fn next(&mut self) -> io::Result<()>
        requires { self.old.held ≡ [] }
        ensures { Notes S.remaining self.old self.new }
    {
        match self.socket.read() {
            Ok(message) => {
                self.take(message);
                Ok(())
            }
            Err(error) => self.end_by(error),
        }
    }

    /// Holds the lines of a message, or notes that it ends the connection.
    fn take(&mut self, message: Message)
        ensures { self.new ≡ record self.old {
          held = lines_of (content_of message);
          ending = ending_after (content_of message);
        } }
    {
        self.ending = Ending::after(&message);
        self.held = HeldLines::of(message);
    }

    /// Notes that an error ends the connection, or hands it on.
    fn end_by(&mut self, error: Error) -> io::Result<()>
        ensures { self.new ≡ record self.old { ending = ending_by error } }
    {
        self.ending = Ending::after_error(&error);
        if self.ending == Ending::NotYet {
            return Err(io_error(error));
        }
        Ok(())
    }
}

impl<S: Read + Write + Drop> Read for MessageLines<S> {
    fn read(&mut self, buf: &mut [u8]) -> io::Result<usize>
        ensures bound { ReadsAtMost result buf.new }
        ensures handed { HandsOn S.contents S.remaining self.old self.new result buf.new }
        ensures end { result ≡ Ok 0 → 0 < length buf.new → self.new.ending ≢ NotYet }
    {
        for _ in 0..u64::MAX {
            self.settle()?;
            if !self.held.is_empty() || self.ending != Ending::NotYet || buf.is_empty() {
                return Ok(self.held.hand_on(buf));
            }
            self.next()?;
        }
        Err(endless())
    }
}
