//! Where the threads that tell wait.

use std::array;
use std::sync::Condvar;

/// How many rooms there are: as many as links at once.
pub(crate) const ROOMS: usize = 8;

/// A room for the thread that tells over each link, so that it is woken alone. Links whose numbers
/// leave the same rest by 8 share one.
#[derive(Drop)]
pub(crate) struct Rooms {
    rooms: [Condvar; ROOMS],
}

impl Rooms {
    /// Rooms where nobody waits.
    pub(crate) fn new() -> Rooms {
        Rooms {
            rooms: array::from_fn(|_| Condvar::new()),
        }
    }

    /// The room for the link of this number.
    pub(crate) fn of(&self, link: usize) -> &Condvar {
        &self.rooms[link % ROOMS]
    }

    /// Wakes all who wait.
    pub(crate) fn wake_all(&self) {
        for room in &self.rooms {
            room.notify_all();
        }
    }
}
