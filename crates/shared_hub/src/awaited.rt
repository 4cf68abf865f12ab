//! What became of what a thread waits for.

/// Commits are numbered as they begin: by turns even and odd.
#[derive(Clone, Copy, Debug, PartialEq, Eq)]
pub(crate) enum Parity {
    Even,
    Odd,
}

/// What became of what a thread waits for.
#[derive(Clone, Copy, Debug, PartialEq, Eq)]
pub(crate) enum Awaited {
    /// It is settled.
    Settled,
    /// The device failed, or no commit could begin.
    Lost,
    /// A commit of this parity may still settle it.
    Pending(Parity),
}
