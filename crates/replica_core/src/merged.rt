//! What a merge made of an operation.

/// What a merge made of an operation that isn't refused.
#[derive(Clone, Copy, Debug, Drop, PartialEq, Eq)]
pub enum Merged {
    /// It stands behind the list now.
    Applied,
    /// It was there already.
    Known,
    /// It depends on what isn't there yet. It isn't kept: the sender sends it again.
    Early,
}
