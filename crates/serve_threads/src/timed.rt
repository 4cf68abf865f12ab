//! A connection whose other end may have a time for what it has to say.
ghost use Rattle.std.specs.Io.{ReadsAtMost};

use first_bytes::has_to_wait;
use std::cell::Cell;
use std::io;
use std::io::{ErrorKind, Read, Write};
use std::net::TcpStream;
use std::rt::Clock;
use std::time::{Duration, Instant};

/// A connection, and the time by the clock for what is read from it, if there is one: however often
/// the other end says a little, the time goes on.
#[derive(Drop)]
pub(crate) struct Timed<'a, R: Clock> {
    rt: &'a R,
    stream: &'a TcpStream,
    limit: Cell<Option<Limit>>,
}

/// A time that runs.
#[derive(Clone, Copy, Drop)]
struct Limit {
    began: Instant,
    time: Duration,
}

impl<'a, R: Clock> Timed<'a, R> {
    /// A connection whose reads take as long as the other end does.
    pub(crate) fn new(rt: &'a R, stream: &'a TcpStream) -> Timed<'a, R> {
        Timed {
            rt,
            stream,
            limit: Cell::new(None),
        }
    }

    /// From now on reads have so much time in all, and then fail (`TimedOut`); a write that is made
    /// meanwhile waits so long at most.
    pub(crate) fn begin(&self, time: Duration) {
        if let Ok(began) = Instant::now(self.rt) {
            self.limit.set(Some(Limit { began, time }));
        }
        let _ = self.stream.set_write_timeout(Some(time));
    }

    /// Reads and writes take as long as the other end does.
    pub(crate) fn end(&self) {
        self.limit.set(None);
        let _ = self.stream.set_read_timeout(None);
        let _ = self.stream.set_write_timeout(None);
    }

    /// Reads until something comes or the time is over.
    fn read_within(&self, limit: Limit, buf: &mut [u8]) -> io::Result<usize>
        ensures { ReadsAtMost result buf.new }
    {
        let mut reader = self.stream;
        for _ in 0..u64::MAX {
            let passed = limit.began.elapsed(self.rt)?;
            let left = limit.time.saturating_sub(passed);
            if left.is_zero() {
                break;
            }
            self.stream.set_read_timeout(Some(left))?;
            match reader.read(buf) {
                Err(error) if has_to_wait(error.kind()) => {}
                done => return done,
            }
        }
        Err(io::Error::from(ErrorKind::TimedOut))
    }
}

impl<'a, 'b, R: Clock> Read for &'b Timed<'a, R> {
    fn read(&mut self, buf: &mut [u8]) -> io::Result<usize> {
        if let Some(limit) = self.limit.get() {
            return self.read_within(limit, buf);
        }
        let mut reader = self.stream;
        reader.read(buf)
    }
}

impl<'a, 'b, R: Clock> Write for &'b Timed<'a, R> {
    fn write(&mut self, buf: &[u8]) -> io::Result<usize> {
        let mut writer = self.stream;
        writer.write(buf)
    }

    fn flush(&mut self) -> io::Result<()> {
        let mut writer = self.stream;
        writer.flush()
    }
}
