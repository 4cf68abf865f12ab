//! Why a guest is sent away, and what it is told.
ghost use Rattle.std.specs.Prelude.{◌≡◌};
ghost use Rattle.web_guests.specs.Causes.{cause_of};

use thiserror::Error;
use websocket::handshake::HandshakeError;

/// Why a guest is sent away.
#[derive(Clone, Copy, Debug, Drop, PartialEq, Eq, Error)]
pub enum Refusal {
    /// It asks for no WebSocket, or says more before it was answered.
    #[error("no request for a WebSocket")]
    NotWebSocket,
    /// It asks for another version of the protocol than 13, or for none.
    #[error("no request for version 13 of the WebSocket protocol")]
    WrongVersion,
    /// It doesn't name this machine once as its host.
    #[error("a host that isn't this machine")]
    ForbiddenHost,
    /// It comes from a web page of an origin that isn't named, or doesn't say from which.
    #[error("an origin that isn't named")]
    ForbiddenOrigin,
    /// Its head is longer than 8,192 bytes or has more than 64 fields.
    #[error("a head that is too long")]
    TooLong,
    /// Its head wasn't there in time.
    #[error("a head that is too slow")]
    TooSlow,
    /// The stream failed, or ended before the head did.
    #[error("a stream that failed")]
    Failed,
    /// There was no memory for the answer.
    #[error("out of memory")]
    OutOfMemory,
}

impl Refusal {
    /// Why a head that asks for no WebSocket is refused.
    pub(crate) fn of(error: HandshakeError) -> Refusal
        ensures { result ≡ cause_of error }
    {
        match error {
            HandshakeError::MissingSecWebSocketVersionHeader => Refusal::WrongVersion,
            _ => Refusal::NotWebSocket,
        }
    }

    /// What the guest is told; nothing where nobody waits for it.
    pub(crate) fn answer(self) -> &'static [u8] {
        match self {
            Refusal::NotWebSocket => BAD_REQUEST,
            Refusal::WrongVersion => UPGRADE_REQUIRED,
            Refusal::ForbiddenHost | Refusal::ForbiddenOrigin => FORBIDDEN,
            Refusal::TooLong => TOO_LONG,
            Refusal::TooSlow | Refusal::Failed | Refusal::OutOfMemory => &[],
        }
    }
}

const BAD_REQUEST: &[u8] = b"HTTP/1.1 400 Bad Request\r\n\
    Content-Type: text/plain\r\nContent-Length: 31\r\nConnection: close\r\n\r\n\
    This port takes WebSockets only";

const UPGRADE_REQUIRED: &[u8] = b"HTTP/1.1 426 Upgrade Required\r\n\
    Upgrade: websocket\r\nSec-WebSocket-Version: 13\r\n\
    Content-Length: 0\r\nConnection: close\r\n\r\n";

const FORBIDDEN: &[u8] = b"HTTP/1.1 403 Forbidden\r\n\
    Content-Type: text/plain\r\nContent-Length: 26\r\nConnection: close\r\n\r\n\
    This page may not come in.";

const TOO_LONG: &[u8] = b"HTTP/1.1 431 Request Header Fields Too Large\r\n\
    Content-Length: 0\r\nConnection: close\r\n\r\n";
