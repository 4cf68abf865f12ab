//! What a meeting of the two parts did.

/// What a meeting of the two parts did.
#[derive(Clone, Copy, Debug, PartialEq, Eq)]
pub enum Met {
    /// A commit began, of this number of operations from the beginning of the list.
    Begun(u64),
    /// A commit was settled, and this number of operations is settled now.
    Settled(u64),
    /// There is no commit, and nothing waits for one.
    Nothing,
}
