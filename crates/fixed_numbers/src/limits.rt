//! The most that a store, an edit, a line, an answer or a frame may have.

/// The greatest counter of an id: 2^48 - 1.
pub const MAX_COUNTER: u64 = 281_474_976_710_655;

/// The most replicas with operations in a store, and so those that a clock counts.
pub const MAX_REPLICAS: usize = 16;

/// The most operations of one replica that a clock counts: 2^24.
pub const MAX_COUNT: u64 = 16_777_216;

/// The most operations in a store: 2^24.
pub const MAX_OPERATIONS: usize = 16_777_216;

/// The greatest version of a root: 2^64 - 1.
pub const MAX_VERSION: u64 = 18_446_744_073_709_551_615;

/// The most documents with operations in a store.
pub const MAX_DOCUMENTS: usize = 1024;

/// The most bytes of records in a store: 2^30.
pub const MAX_STREAM_LENGTH: u64 = 1_073_741_824;

/// The most bytes of records that wait for a commit: 2^20.
pub const MAX_PENDING: u64 = 1_048_576;

/// How many bytes the operations that wait take at most as single records: 83 for each byte that
/// waits. A run of 256 characters by a sixteenth replica, with a token, waits as 1,437 bytes and
/// has 118,480 bytes of single records.
pub const MAX_PENDING_RECORDS: usize = 87_031_808;

/// The most steps that are kept in one opening: 2^20.
pub const MAX_STEPS: usize = 1_048_576;

/// The most characters that a change inserts or removes.
pub const MAX_EDIT: usize = 256;

/// The most changes that are made at once.
pub const MAX_CHANGES: usize = 1024;

/// The most bytes of a link's URL, which has at least one.
pub const MAX_URL_LENGTH: usize = 1024;

/// The most bytes of a session's line, without its line feed: 2^16.
pub const MAX_LINE: usize = 65_536;

/// The most ids of comments that the spans of a document list, each counted once for each span that
/// has it: 2^20.
pub const MAX_LISTED: usize = 1_048_576;

/// The most operations that one frame of a link tells a peer.
pub const MAX_TOLD: usize = 64;
