//! A disk whose write of a body waits until a session was served.
ghost use Rattle.std.specs.Prelude.{[]};

use crate::test_daemons::TURNS;
use disk_trait::{Disk, DiskError, DiskFacts, MemDisk};
use fixed_numbers::sizes::BODY_LENGTH;
use std::rt::Clock;
use std::sync::{Mutex, Wait};
use std::thread;
use std::time::Duration;

/// What a disk that waits and the session for which it waits tell each other.
#[derive(Drop)]
pub struct Meeting {
    is_writing: Mutex<bool>,
    is_served: Mutex<bool>,
    is_over: Mutex<Option<bool>>,
}

impl Meeting {
    /// Nothing is written yet, and nobody was served.
    pub fn new() -> Meeting {
        Meeting {
            is_writing: Mutex::new(false),
            is_served: Mutex::new(false),
            is_over: Mutex::new(None),
        }
    }

    /// Waits until the disk writes the body, at most `TURNS` turns, and tells whether it does.
    pub fn is_writing<R: Wait + Clock>(&self, rt: &R) -> bool {
        comes(rt, &self.is_writing)
    }

    /// The session was served.
    pub fn serve<R: Wait>(&self, rt: &R) {
        *self.is_served.lock(rt) = true;
    }

    /// Whether the session was served while the body was written.
    pub fn has_met<R: Wait>(&self, rt: &R) -> bool {
        *self.is_over.lock(rt) == Some(true)
    }

    /// Waits, at the first write of a body, until the session was served.
    fn write<R: Wait + Clock>(&self, rt: &R) {
        if self.is_over.lock(rt).is_some() {
            return;
        }
        *self.is_writing.lock(rt) = true;
        let is_served = comes(rt, &self.is_served);
        *self.is_over.lock(rt) = Some(is_served);
    }
}

/// Waits until this is so, at most `TURNS` turns, and tells whether it is.
fn comes<R: Wait + Clock>(rt: &R, is_so: &Mutex<bool>) -> bool {
    for _ in 0..TURNS {
        if *is_so.lock(rt) {
            return true;
        }
        thread::sleep(rt, Duration::from_millis(1));
    }
    false
}

/// A disk in memory whose first write of a body waits until a session was served. It doesn't tell.
#[derive(Drop)]
pub struct WaitingDisk<'a, R> {
    pub rt: &'a R,
    pub disk: MemDisk,
    pub meeting: &'a Meeting,
}

impl<'a, R> DiskFacts for WaitingDisk<'a, R> {
    ghost tells = { λ _. ⊥ };

    ghost content = { λ _. [] };

    ghost survives = { λ _ _. ⊥ };

    ghost time = { λ _. 0 };

    ghost left_since = { λ _ _ _. ⊥ };

    ghost writes = { λ _. 0 };

    ghost syncs = { λ _. 0 };

    ghost failures = { λ _. 0 };
}

impl<'a, R: Wait + Clock> Disk for WaitingDisk<'a, R> {
    fn size(&mut self) -> Result<u64, DiskError> {
        self.disk.size()
    }

    fn read_at(&mut self, pos: u64, bytes: &mut [u8]) -> Result<(), DiskError> {
        self.disk.read_at(pos, bytes)
    }

    fn write_at(&mut self, pos: u64, bytes: &[u8]) -> Result<(), DiskError> {
        if bytes.len() == BODY_LENGTH {
            self.meeting.write(self.rt);
        }
        self.disk.write_at(pos, bytes)
    }

    fn sync(&mut self) -> Result<(), DiskError> {
        self.disk.sync()
    }

    ghost lawful = { λ _ never. absurd never };
}
