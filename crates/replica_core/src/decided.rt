//! What is decided of an edit that nothing refuses.

/// What is decided of an edit that nothing refuses, as `Replica::decide_edit` tells it and
/// `Replica::put_edit` takes it.
#[derive(Clone, Copy, Debug)]
pub struct Decided {
    /// For how many bytes there has to be room among those that wait for a commit: those that the
    /// operations of one change add, and of several the most that they may add.
    pub bytes: u64,
    /// The place of its document among those that have operations: its index, or where it goes.
    pub(crate) place: Result<usize, usize>,
}
