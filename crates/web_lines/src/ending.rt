//! How a connection ended.
ghost use Rattle.std.specs.Prelude.{◌≡◌};
ghost use Rattle.tungstenite.specs.Socket.{close_of, content_of};
ghost use Rattle.web_lines.specs.Endings.{ending_after, ending_by, code_of};

use tungstenite::{CloseCode, CloseFrame, Error, Message};
use websocket::error::ProtocolError;

/// Whether a connection ended, and how.
#[derive(Clone, Copy, Debug, Drop, PartialEq, Eq)]
pub enum Ending {
    /// It is open.
    NotYet,
    /// The other end closed it, with this code if it gave one, and was answered.
    Closed(Option<CloseCode>),
    /// It was refused with this code: 1003 (Unsupported) a message that is no text, 1007 (Invalid)
    /// a text that isn't UTF-8, 1009 (Size) a message or a frame of over 65,536 bytes, 1002
    /// (Protocol) any other break of the protocol.
    Refused(CloseCode),
    /// The stream ended, and nobody had closed the connection.
    StreamEnded,
}

impl Ending {
    /// What a message does to an open connection.
    pub fn after(message: &Message) -> Ending
        ensures { result ≡ ending_after (content_of message.now) }
    {
        match message {
            Message::Text(_) | Message::Ping(_) | Message::Pong(_) => Ending::NotYet,
            Message::Binary(_) => Ending::Refused(CloseCode::Unsupported),
            Message::Close(frame) => Ending::Closed(code_of(frame)),
        }
    }

    /// What an error does to an open connection: nothing if it is none of the protocol's.
    pub fn after_error(error: &Error) -> Ending
        ensures { result ≡ ending_by error.now }
    {
        match error {
            Error::ConnectionClosed => Ending::Closed(None),
            Error::Capacity(_) => Ending::Refused(CloseCode::Size),
            Error::Utf8 => Ending::Refused(CloseCode::Invalid),
            Error::Protocol(ProtocolError::ResetWithoutClosingHandshake) => Ending::StreamEnded,
            Error::Protocol(_) => Ending::Refused(CloseCode::Protocol),
            _ => Ending::NotYet,
        }
    }
}

/// The code of a close, if it has one.
fn code_of(frame: &Option<CloseFrame>) -> Option<CloseCode>
    ensures { result ≡ code_of (close_of frame.now) }
{
    match frame {
        Some(frame) => Some(frame.code),
        None => None,
    }
}
