//! How a connection was let in.

/// The entry of a connection that was let in.
#[derive(Clone, Copy, Debug, Drop, PartialEq, Eq)]
pub(crate) struct Entry {
    /// Which one has entered so, counted from 0.
    pub number: u64,
    /// Whether it took the last free place.
    pub has_last: bool,
}
