//! How lines are written to somebody who may not read them.

use crate::journal::Journal;
use std::io::{ErrorKind, Write};
use std::rt::Clock;
use std::sync::Wait;
use std::thread;
use std::time::Duration;

/// The pause before a write that would have waited is made again, in milliseconds.
const PAUSE: u64 = 10;

/// How many such pauses there are in all once the journal has ended.
const LAST_PAUSES: u32 = 10;

/// Writes lines, as long as somebody takes them.
#[derive(Drop)]
pub(crate) struct LineWriter<'a, R: Wait + Clock, W: Write> {
    rt: &'a R,
    journal: &'a Journal,
    output: &'a mut W,
    /// How many pauses are left for the end.
    pauses: u32,
    /// Whether nothing can be written any more.
    is_broken: bool,
}

impl<'a, R: Wait + Clock, W: Write> LineWriter<'a, R, W> {
    /// One that has written nothing yet.
    pub(crate) fn new(rt: &'a R, journal: &'a Journal, output: &'a mut W) -> LineWriter<'a, R, W> {
        LineWriter {
            rt,
            journal,
            output,
            pauses: LAST_PAUSES,
            is_broken: false,
        }
    }

    /// Writes a line, unless nothing can be written any more.
    pub(crate) fn write(&mut self, line: &[u8]) {
        let mut at = 0;
        for _ in self.rt.forever() {
            if self.is_broken || line.len() <= at {
                return;
            }
            match self.output.write(&line[at..]) {
                Ok(0) => self.is_broken = true,
                Ok(count) => at = at.saturating_add(count),
                Err(error) if error.kind() == ErrorKind::Interrupted => {}
                Err(error) if error.kind() == ErrorKind::WouldBlock => self.pause(),
                Err(_) => self.is_broken = true,
            }
        }
    }

    /// Waits a moment. Once the journal has ended, that is done a few times alone.
    fn pause(&mut self) {
        if self.journal.is_over(self.rt) {
            if self.pauses == 0 {
                self.is_broken = true;
                return;
            }
            self.pauses -= 1;
        }
        thread::sleep(self.rt, Duration::from_millis(PAUSE));
    }
}
