//! What was answered comes to the other end.

use first_bytes::has_to_wait;
use std::io::Read;
use std::net::{Shutdown, TcpStream};
use std::time::Duration;

/// How many times at most more is read from one who was told that nothing more comes, and how long
/// each time, in milliseconds.
const TURNS: u32 = 200;

const TURN: u64 = 10;

/// How many bytes are dropped at once.
const PIECE: usize = 4_096;

/// Sends what was answered and the end of it, and drops what still comes, until the other end
/// closes too, for two seconds at most. A connection that is closed with something unread is reset,
/// and the system then throws away what the other end hasn't read yet.
pub(crate) fn send_last_words(stream: &TcpStream) {
    let _ = stream.shutdown(Shutdown::Write);
    let _ = stream.set_read_timeout(Some(Duration::from_millis(TURN)));
    let mut reader = stream;
    let mut piece = [0; PIECE];
    for _ in 0..TURNS {
        match reader.read(&mut piece) {
            Ok(0) => return,
            Ok(_) => {}
            Err(error) if has_to_wait(error.kind()) => {}
            Err(_) => return,
        }
    }
}
