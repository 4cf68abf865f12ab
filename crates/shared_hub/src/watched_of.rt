//! What one of several watched documents has come to.

/// What one of several watched documents has come to.
#[derive(Clone, Copy, Debug, PartialEq, Eq)]
pub enum WatchedOf {
    /// This document has so many settled operations.
    Rev { doc: u32, rev: u64 },
    /// Nothing new was found so far.
    Nothing,
    /// Nothing more is settled: the device failed, or the flusher has ended.
    Failed,
}
