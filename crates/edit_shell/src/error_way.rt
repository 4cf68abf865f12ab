//! The way to standard error on which nobody waits for its reader.

use std::io::{ErrorKind, Read, Write};
use std::net::{Net, Shutdown};
use std::os::unix::net::UnixStream;
use std::thread::Threads;
use std::time::Duration;
use std::{io, thread};

/// How many bytes are passed on at once at most.
const PIECE: usize = 4_096;

/// How long the last bytes have to be written, in milliseconds.
const LAST_WORDS: u64 = 100;

/// A way to standard error: what is written goes to a thread that passes it on. Nobody joins that
/// thread, so that the program ends even if it sits in a write: a terminal that nobody reads says
/// that it takes something, and then takes no more than a byte.
#[derive(Drop)]
pub struct ErrorWay {
    socket: UnixStream,
}

impl ErrorWay {
    /// A way to these errors. A write that would wait is `WouldBlock`. An error if there is no
    /// thread or no socket for it.
    pub fn open<R: Threads + Net, F: Write + Send + Drop + 'static>(
        rt: &R,
        errors: F,
    ) -> io::Result<ErrorWay> {
        let (socket, end) = UnixStream::pair(rt)?;
        socket.set_nonblocking(true)?;
        match thread::spawn(rt, move || pass_on(end, errors)) {
            Ok(_nobody_joins) => Ok(ErrorWay { socket }),
            Err(_) => Err(io::Error::from(ErrorKind::OutOfMemory)),
        }
    }

    /// Ends it: what was written has a short time to be passed on.
    pub fn end(mut self) {
        let time = Some(Duration::from_millis(LAST_WORDS));
        let _ = self.socket.shutdown(Shutdown::Write);
        if self.socket.set_nonblocking(false).is_ok()
            && self.socket.set_read_timeout(time).is_ok()
        {
            // The other end says nothing: it is closed once all was passed on.
            let _ = self.socket.read(&mut [0]);
        }
    }
}

impl Write for ErrorWay {
    fn write(&mut self, buf: &[u8]) -> io::Result<usize> {
        self.socket.write(buf)
    }

    fn flush(&mut self) -> io::Result<()> {
        Ok(())
    }
}

/// Writes what comes, until nothing more does or nothing can be written.
fn pass_on<S: Read + Drop, F: Write + Drop>(mut from: S, mut errors: F) {
    let mut piece = [0; PIECE];
    for _ in 0..u64::MAX {
        match from.read(&mut piece) {
            Ok(0) => return,
            Ok(count) => {
                if errors.write_all(&piece[..count]).is_err() {
                    return;
                }
            }
            Err(error) if error.kind() == ErrorKind::Interrupted => {}
            Err(_) => return,
        }
    }
}
