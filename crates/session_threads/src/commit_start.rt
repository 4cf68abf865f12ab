//! How a commit begins.

/// How a commit begins.
#[derive(Clone, Copy, Debug, PartialEq, Eq)]
pub enum CommitStart {
    /// Its device calls are to be made.
    UnderWay,
    /// All is settled already.
    Settled,
    /// There is none: the device failed, or it can't begin.
    Refused,
}
