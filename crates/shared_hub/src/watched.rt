//! What a document that is watched has come to.

/// What a document that is watched has come to.
#[derive(Clone, Copy, Debug, PartialEq, Eq)]
pub enum Watched {
    /// It has so many settled operations, which are more than were seen.
    Rev(u64),
    /// Nothing new came in the time.
    Nothing,
    /// Nothing more is settled: the device failed, or the flusher has ended.
    Failed,
}
