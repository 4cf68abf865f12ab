//! Who sleeps, and what wakes it.

use crate::rooms::ROOMS;

/// Who sleeps, and what wakes it. No contract speaks of it.
#[derive(Clone, Copy, Debug)]
pub(crate) struct Turns {
    /// How long the list was when a commit was last tried.
    pub tried: usize,
    /// How long it was at the last try of the commit that was given up last.
    pub given_up: usize,
    /// Whether the flusher sleeps.
    pub flusher_sleeps: bool,
    /// How many edits came behind those of the last commit that began.
    pub edits: u64,
    /// For how many edits the flusher waits before the next commit: as many as the last one had and
    /// as had come when it was settled. 0 once it has waited.
    pub group: u64,
    /// How many commits have begun.
    pub commits: u64,
    /// How often the threads that tell were called, room by room.
    pub calls: [u64; ROOMS],
    /// Whether the threads were asked to end.
    pub is_closing: bool,
    /// Whether the flusher has ended, so that nothing more is settled.
    pub has_ended: bool,
    /// Whether a peer has operations of this replica that the list hasn't.
    pub was_put_back: bool,
}

impl Turns {
    /// Nobody sleeps, and nothing was given up.
    pub(crate) fn new() -> Turns {
        Turns {
            tried: 0,
            given_up: 0,
            flusher_sleeps: false,
            edits: 0,
            group: 0,
            commits: 0,
            calls: [0; ROOMS],
            is_closing: false,
            has_ended: false,
            was_put_back: false,
        }
    }
}
