//! What was told over a link, and whether the other end takes it.

use op_ids::{Clock, ReplicaId};
use op_model::Op;

/// What was told since the last HAVE, and whether the other end takes it. One that took nothing of
/// it may be out of memory, or wait for its disk: until a HAVE counts what it was told, it is told
/// one frame for each HAVE. Else it would be told all that it lacks again and again.
#[derive(Drop)]
pub(crate) struct Told {
    /// The first of the operations.
    first: Option<Place>,
    /// Whether the last HAVE behind operations didn't count the first of them.
    is_asked_again: bool,
    /// Whether any HAVE counted the first of them.
    was_taken: bool,
}

/// The place of an operation among those of its replica: how many of these are before it.
#[derive(Clone, Copy, Debug, Drop)]
struct Place {
    replica: ReplicaId,
    before: u64,
}

impl Told {
    /// Nothing was told so far.
    pub(crate) fn nothing() -> Told {
        Told {
            first: None,
            is_asked_again: false,
            was_taken: false,
        }
    }

    /// Notes operations that were told, of which this is the first.
    pub(crate) fn add(&mut self, op: &Op) {
        if self.first.is_none() {
            let replica = op.id.replica();
            let before = op.deps.get(replica);
            self.first = Some(Place { replica, before });
        }
    }

    /// Whether operations were told since the last HAVE.
    pub(crate) fn is_some(&self) -> bool {
        self.first.is_some()
    }

    /// Notes a HAVE of this clock.
    pub(crate) fn hear_have(&mut self, clock: &Clock) {
        if let Some(first) = self.first.take() {
            self.is_asked_again = clock.get(first.replica) <= first.before;
            self.was_taken |= !self.is_asked_again;
        }
    }

    /// Whether no more is to be told before the next HAVE.
    pub(crate) fn is_enough(&self) -> bool {
        self.is_asked_again && self.first.is_some()
    }

    /// Whether the other end took something of what was told, at any time.
    pub(crate) fn was_taken(&self) -> bool {
        self.was_taken
    }
}
