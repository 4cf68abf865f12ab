//! The lines on their way to the thread that writes them.
use crate::event::Event;
use crate::line_writer::LineWriter;
use std::alloc::Global;
use std::io::Write;
use std::mem;
use std::rt::Clock;
use std::sync::{Condvar, Mutex, Wait};

/// How many lines wait at most for the thread that writes them.
const MOST: usize = 256;

/// Which events are told.
#[derive(Clone, Copy)]
pub enum Telling {
    /// All of them.
    All,
    /// Where a daemon listens, and its end.
    Brief,
}

/// The lines of a daemon's events, on their way to the thread that writes them. Whoever tells of an
/// event waits for no writing: a line for which there is no room or no memory is dropped, and
/// counted.
#[derive(Drop)]
pub struct Journal {
    alloc: Global,
    telling: Telling,
    queue: Mutex<Queue>,
    came: Condvar,
}

/// What waits to be written.
#[derive(Drop)]
struct Queue {
    lines: Vec<String>,
    dropped: u64,
    is_over: bool,
}

/// What the thread that writes has taken.
#[derive(Drop)]
struct Taken {
    lines: Vec<String>,
    /// How many lines were dropped behind these.
    dropped: u64,
}

impl Journal {
    /// One that tells these events, and has no lines yet.
    pub fn new(alloc: Global, telling: Telling) -> Journal {
        Journal {
            alloc,
            telling,
            queue: Mutex::new(Queue {
                lines: Vec::new(alloc),
                dropped: 0,
                is_over: false,
            }),
            came: Condvar::new(),
        }
    }

    /// Tells of an event, without waiting for its line to be written.
    pub fn tell<R: Wait>(&self, rt: &R, event: &Event<'_>) {
        if matches!(self.telling, Telling::Brief) && !event.is_brief() {
            return;
        }
        let line = format!(in self.alloc; "{event}\n").ok();
        self.queue.lock(rt).add(line);
        self.came.notify_all();
    }

    /// Nothing more is told: the thread that writes has a short time for what is left.
    pub fn end<R: Wait>(&self, rt: &R) {
        self.queue.lock(rt).is_over = true;
        self.came.notify_all();
    }

    /// Whether nothing more is told.
    pub(crate) fn is_over<R: Wait>(&self, rt: &R) -> bool {
        self.queue.lock(rt).is_over
    }

    /// Writes the lines as they come, until the end. A write that would wait is to be an error,
    /// `WouldBlock`; it is made again after a pause, which ends soon after the journal.
    pub fn write_all<R: Wait + Clock, W: Write>(&self, rt: &R, output: &mut W) {
        let mut writer = LineWriter::new(rt, self, output);
        for _ in rt.forever() {
            let Some(Taken { lines, dropped }) = self.take(rt) else {
                return;
            };
            for line in lines.iter() {
                writer.write(line.as_bytes());
            }
            if dropped > 0 {
                self.write_dropped(dropped, &mut writer);
            }
        }
    }

    /// Writes how many lines were dropped.
    fn write_dropped<R: Wait + Clock, W: Write>(
        &self,
        count: u64,
        writer: &mut LineWriter<'_, R, W>,
    ) {
        if let Ok(line) = format!(in self.alloc; "{}\n", Event::Dropped { count }) {
            writer.write(line.as_bytes());
        }
    }

    /// Waits for lines, and takes those that are there; nothing at the end.
    fn take<R: Wait>(&self, rt: &R) -> Option<Taken> {
        let mut queue = self
            .came
            .wait_while(rt, self.queue.lock(rt), |queue| queue.has_to_wait());
        queue.take(self.alloc)
    }
}

impl Queue {
    /// Keeps a line, or drops it where there is none or no room.
    fn add(&mut self, line: Option<String>) {
        let is_kept = match line {
            Some(line) => self.lines.len() < MOST && self.lines.push(line).is_ok(),
            None => false,
        };
        if !is_kept {
            self.dropped = self.dropped.saturating_add(1);
        }
    }

    /// Whether there is nothing to write yet.
    fn has_to_wait(&self) -> bool {
        self.lines.is_empty() && self.dropped == 0 && !self.is_over
    }

    /// What is there to be written; nothing at the end.
    fn take(&mut self, alloc: Global) -> Option<Taken> {
        if self.lines.is_empty() && self.dropped == 0 {
            return None;
        }
        Some(Taken {
            lines: mem::replace(&mut self.lines, Vec::new(alloc)),
            dropped: mem::take(&mut self.dropped),
        })
    }
}
