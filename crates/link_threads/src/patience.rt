//! How long a link waits while no operation can be taken.

use crate::link_end::LinkEnd;
use std::rt::Clock;
use std::sync::Wait;
use std::thread;
use std::time::Duration;

/// The second pause, in milliseconds; there is none before the first HAVE that asks again, so that
/// the other end soon stops telling. Each further pause is twice as long, up to the longest.
const SECOND: u64 = 2;

const LONGEST: u64 = 4_000;

/// How often a pause looks whether the link is over, in milliseconds.
const LOOK: u64 = 50;

/// How long a link waits while no operation can be taken, before it asks for them again.
#[derive(Drop)]
pub(crate) struct Patience {
    /// The next pause, in milliseconds.
    next: u64,
}

impl Patience {
    /// The first pause comes next.
    pub(crate) fn new() -> Patience {
        Patience { next: 0 }
    }

    /// Notes that an operation was taken: the first pause comes next.
    pub(crate) fn end(&mut self) {
        self.next = 0;
    }

    /// Makes a pause, and answers whether the link goes on; it ends sooner if that doesn't.
    pub(crate) fn pause<R: Wait + Clock>(&mut self, rt: &R, end: &LinkEnd) -> bool {
        let time = self.next;
        self.next = LONGEST.min(SECOND.max(time.saturating_mul(2)));
        for _ in 0..time / LOOK {
            if end.is_over(rt) {
                return false;
            }
            thread::sleep(rt, Duration::from_millis(LOOK));
        }
        thread::sleep(rt, Duration::from_millis(time % LOOK));
        !end.is_over(rt)
    }
}
