//! The size of a chunk.

/// How many cells a chunk has, tombstones too, and how many of them a reader sees.
#[derive(Clone, Copy, Debug, PartialEq, Eq)]
pub struct ChunkSize {
    pub cells: usize,
    pub shown: usize,
}
