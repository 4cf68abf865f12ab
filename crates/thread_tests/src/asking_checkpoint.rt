//! A checkpoint that holds the flusher up until a session was served.

use crate::test_daemons::Talk;
use shared_hub::{Checkpoint, Point};
use std::alloc::Global;
use std::net::{Net, TcpListener, TcpStream};
use std::rt::Clock;
use std::sync::{Condvar, Mutex, Wait};

/// How far the flusher is.
#[derive(Clone, Copy, Debug, PartialEq, Eq)]
pub enum Progress {
    /// It has made no device call yet.
    Before,
    /// It is held up behind its first device call.
    Now,
    /// It went on.
    Behind,
}

/// A checkpoint that holds the flusher up behind its first device call, until a session of its own
/// is told what it waits for.
#[derive(Drop)]
pub struct AskingCheckpoint<'a, R> {
    rt: &'a R,
    alloc: Global,
    /// The sessions' port.
    port: u16,
    request: &'static str,
    answer: &'static str,
    held: Mutex<Progress>,
    came: Condvar,
    /// Whether the answer came.
    is_told: Mutex<bool>,
}

impl<'a, R: Wait> AskingCheckpoint<'a, R> {
    /// A checkpoint that waits for this answer to a request.
    pub fn new(
        rt: &'a R,
        alloc: Global,
        port: u16,
        request: &'static str,
        answer: &'static str,
    ) -> AskingCheckpoint<'a, R> {
        AskingCheckpoint {
            rt,
            alloc,
            port,
            request,
            answer,
            held: Mutex::new(Progress::Before),
            came: Condvar::new(),
            is_told: Mutex::new(false),
        }
    }

    /// Waits until the flusher is held up, or went on.
    pub fn wait(&self) {
        let held = self.held.lock(self.rt);
        let _held = self
            .came
            .wait_while(self.rt, held, |held| *held == Progress::Before);
    }

    /// Whether the answer came that it waited for.
    pub fn is_told(&self) -> bool {
        *self.is_told.lock(self.rt)
    }

    /// Notes how far the flusher is, and gives how far it was.
    fn put(&self, now: Progress) -> Progress {
        let mut held = self.held.lock(self.rt);
        let before = *held;
        *held = now;
        drop(held);
        self.came.notify_all();
        before
    }
}

impl<'a, R: Wait + Clock + Net<Listener = TcpListener, Stream = TcpStream>> Checkpoint
    for AskingCheckpoint<'a, R> {
    fn pass(&self, point: Point) {
        if point != Point::DeviceCall || *self.held.lock(self.rt) != Progress::Before {
            return;
        }
        self.put(Progress::Now);
        if let Some(mut talk) = Talk::to(self.rt, self.alloc, self.port) {
            let is_told = talk.comes_to(self.rt, self.request, self.answer);
            *self.is_told.lock(self.rt) = is_told;
        }
        self.put(Progress::Behind);
    }
}
