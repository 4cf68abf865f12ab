//! How many bytes or numbers the parts of a file and of a link's stream have.

/// The bytes of a page of a file.
pub const PAGE_SIZE: usize = 4096;

/// The numbers of data pages that a table page has room for, four bytes each.
pub const TABLE_ENTRIES: usize = 1024;

/// The bytes of the two root slots, which are the first two pages of a file.
pub const SLOTS_SIZE: usize = 8192;

/// The most data pages of a stream: 2^18.
pub const MAX_DATA_PAGES: usize = 262_144;

/// The most table pages of a root.
pub const MAX_TABLES: usize = 256;

/// The most pages that a root reaches: those of its tables and of its data.
pub const MAX_LIVE_PAGES: usize = 262_400;

/// A call that takes pages is asked for so few that, with those in use, they are at most this many:
/// 2^30. No file of a store has as many.
pub const MAX_PAGES: usize = 1_073_741_824;

/// The bytes of a root body: a page without its gate and the seven bytes behind that.
pub const BODY_LENGTH: usize = 4088;

/// The fewest bytes of the body of an operation's record, which are those that its length counts.
pub const MIN_RECORD: usize = 33;

/// The most bytes of the body of an operation's record without a token.
pub const MAX_RECORD: usize = 1491;

/// The most bytes of the body of an operation's record with a token, of which it has sixteen.
pub const MAX_TOKEN_RECORD: usize = 1507;

/// The most bytes of the content of a link's frame, which are those that its length counts.
pub const MAX_CONTENT: usize = 131_068;
