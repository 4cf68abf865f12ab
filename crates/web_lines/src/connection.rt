//! A server's side of a connection whose handshake is done.
ghost use Rattle.std.specs.Prelude.{◌≡◌, [], Some, false, OnOk, OnErr};
ghost use Rattle.tungstenite.specs.Socket.{IsFresh, Writes};
ghost use Rattle.websocket.specs.Connection.{close_step, write_step};
ghost use Rattle.websocket.specs.Content.{text};
ghost use Rattle.websocket.specs.declared.protocol.config.Role.TheVariants.{Server};

use std::alloc::Global;
use std::io;
use std::io::{ErrorKind, Read, Write};
use tungstenite::protocol::WebSocketConfig;
use tungstenite::{CloseCode, CloseFrame, Error, Message, NoMask, Role, Utf8Bytes, WebSocket};

/// The longest message, and the longest frame, in bytes.
pub const LONGEST: usize = 65_536;

/// How many bytes of the stream are read at once at most.
const PIECE: usize = 4_096;

/// A server's socket on a stream of which nothing was read since its handshake.
pub(crate) fn server<S: Drop>(alloc: Global, stream: S) -> WebSocket<S, NoMask>
    ensures fresh { IsFresh result stream Server }
    ensures messages { result.conn.config.max_message_size ≡ Some 65_536 }
    ensures frames { result.conn.config.max_frame_size ≡ Some 65_536 }
    ensures masked { result.conn.config.accept_unmasked_frames ≡ false }
{
    let config = WebSocketConfig::default()
        .read_buffer_size(PIECE)
        .max_message_size(Some(LONGEST))
        .max_frame_size(Some(LONGEST));
    WebSocket::from_raw_socket(alloc, stream, NoMask, Role::Server, Some(config))
}

/// Sends a text message. If the stream fails the message waits, and the next flush tells why. An
/// error leaves the socket as it was: `NotConnected` after a close, or `OutOfMemory`.
pub(crate) fn send_text<S: Read + Write + Drop>(
    socket: &mut WebSocket<S, NoMask>,
    alloc: Global,
    words: &str,
) -> io::Result<()>
    ensures ok { OnOk result (Writes S.contents socket.old socket.new
        (write_step socket.old.conn (text words.now))) }
    ensures err { OnErr result (socket.new ≡ socket.old) }
{
    if !socket.can_write() {
        return Err(io::Error::from(ErrorKind::NotConnected));
    }
    let message = Message::text(alloc, words)?;
    match socket.send(message) {
        Ok(()) => Ok(()),
        Err(Error::Io(_error)) => Ok(()),
        Err(error) => Err(io_error(error)),
    }
}

/// Sends a close, unless one was sent or answered before, and all that waits. If it fails for the
/// stream the next call goes on.
pub(crate) fn send_close<S: Read + Write + Drop>(
    socket: &mut WebSocket<S, NoMask>,
    frame: CloseFrame,
) -> io::Result<()>
    ensures closed { OnOk result (Writes S.contents socket.old socket.new
        (close_step socket.old.conn (Some (frame.code, frame.reason)))) }
    ensures empty { OnOk result (socket.new.output ≡ []) }
{
    match socket.close(Some(frame)) {
        Ok(()) => Ok(()),
        Err(error) => Err(io_error(error)),
    }
}

/// A close with this code and no reason.
pub(crate) fn bare_close(code: CloseCode) -> CloseFrame
    ensures code { result.code ≡ code }
    ensures reason { result.reason ≡ [] }
{
    CloseFrame {
        code,
        reason: Utf8Bytes::new(),
    }
}

/// An error of a socket as one of a reader or a writer: the stream's as it was, `OutOfMemory`,
/// `NotConnected` for a connection that is closed, and `InvalidInput` for a close that can't be
/// sent.
pub(crate) fn io_error(error: Error) -> io::Error {
    match error {
        Error::Io(error) => error,
        Error::OutOfMemory => io::Error::from(ErrorKind::OutOfMemory),
        Error::WriteBufferFull => io::Error::from(ErrorKind::WouldBlock),
        Error::ConnectionClosed | Error::AlreadyClosed => io::Error::from(ErrorKind::NotConnected),
        _ => io::Error::from(ErrorKind::InvalidInput),
    }
}
