//! What a session is told for which there is no place.
ghost use Rattle.std.specs.Prelude.{◌≡◌};
ghost use Rattle.session_lines.specs.Saying.{said_refused};
ghost use Rattle.session_lines.specs.declared.refusal.Refusal.TheVariants.{Busy};

use std::io::Write;
use std::net::TcpStream;

/// Answers a session 8, for which there is no place, no thread or no memory. It takes none itself,
/// and doesn't wait: the line is the first on its connection.
pub(crate) fn say_busy(stream: &TcpStream) {
    let mut writer = stream;
    let _ = writer.write_all(busy_line());
}

/// The answer 8, with its line feed.
pub(crate) fn busy_line() -> &'static [u8]
    ensures { result.now ≡ said_refused Busy }
{
    b"{\"code\":8,\"error\":\"busy\",\"ok\":false}\n"
}

/// Tells one that asks for a WebSocket that there is no place or no thread for it. Its request
/// isn't read, so it can't be told by a message.
pub(crate) fn say_busy_to_web(stream: &TcpStream) {
    let mut writer = stream;
    let _ = writer.write_all(
        b"HTTP/1.1 503 Service Unavailable\r\nContent-Length: 0\r\nConnection: close\r\n\r\n",
    );
}
