//! A step that a replica made, for contracts alone.
use ghost_lists::Seen;
use op_model::Action;

/// A step that a replica made since it was opened. It is made for contracts alone, and let go at
/// once: it takes no memory, and the action isn't copied.
#[derive(Drop)]
pub enum Step {
    /// An action of a session made `count` operations, the first of them with this index in the
    /// list.
    Edit {
        session: u64,
        edit: Seen<Action>,
        first: usize,
        count: usize,
    },
    /// A peer's operation got this index in the list.
    Merge {
        peer: u64,
        index: usize,
    },
    /// So many operations were settled.
    Settlement {
        settled: usize,
    },
}
