//! Whether the daemon's threads were asked to end, and for what.

use std::rt::Clock;
use std::sync::{Condvar, Mutex, Wait};
use std::time::Duration;

/// What the daemon's threads are asked to end for.
#[derive(Clone, Copy, Debug, PartialEq, Eq)]
pub enum End {
    /// A session asked for a stop, or not all threads could be started.
    Stop,
    /// The device failed, and the daemon is to end then.
    Failure,
    /// The hub has no steps left (10), so the file is to be opened anew.
    Renewal,
}

/// Whether the daemon's threads were asked to end, for which they may wait.
#[derive(Drop)]
pub struct Ending {
    asked: Mutex<Option<End>>,
    came: Condvar,
}

impl Ending {
    /// They weren't asked yet.
    pub fn new() -> Ending {
        Ending {
            asked: Mutex::new(None),
            came: Condvar::new(),
        }
    }

    /// Asks them to end. A stop and a failure outweigh a renewal, whichever is asked for first.
    pub fn ask<R: Wait>(&self, rt: &R, end: End) {
        let mut asked = self.asked.lock(rt);
        if matches!(*asked, None | Some(End::Renewal)) {
            *asked = Some(end);
        }
        drop(asked);
        self.came.notify_all();
    }

    /// What they were asked to end for, if they were.
    pub fn asked<R: Wait>(&self, rt: &R) -> Option<End> {
        *self.asked.lock(rt)
    }

    /// Whether they were asked.
    pub fn is_asked<R: Wait>(&self, rt: &R) -> bool {
        self.asked(rt).is_some()
    }

    /// Waits until they are asked.
    pub fn wait<R: Wait>(&self, rt: &R) {
        let _asked = self
            .came
            .wait_while(rt, self.asked.lock(rt), |asked| asked.is_none());
    }

    /// Waits until they are asked, at most so long, and answers whether they were.
    pub fn wait_at_most<R: Wait + Clock>(&self, rt: &R, time: Duration) -> bool {
        let guard = self.asked.lock(rt);
        let (_, result) = self
            .came
            .wait_timeout_while(rt, guard, time, |asked| asked.is_none());
        !result.timed_out()
    }
}
