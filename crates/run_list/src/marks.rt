//! The numbers of a list of runs.

/// What stands in place of an operation that begins a run: the number of no character.
pub(crate) const BEGINS: u32 = 1_114_112;

/// The most operations of a list, whose places are counted in 32 bits.
pub(crate) const MOST_OPERATIONS: usize = 4_294_967_295;

/// The most bytes that the records of those take that begin a run.
pub(crate) const MOST_BYTES: u64 = 4_294_967_295;
