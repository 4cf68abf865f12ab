//! The number of each refusal, with its meaning, which is the same in the whole program. Which of
//! them a call can answer, the type of its refusal says.

// Of a session, an edit and a merge.

/// A growth of memory was refused, or spans are beyond what an answer may list.
pub const MEMORY: u8 = 1;

/// A line isn't read as JSON.
pub const SYNTAX: u8 = 2;

/// No such request.
pub const REQUEST: u8 = 3;

/// A field is missing, unknown or out of its rule.
pub const FIELD: u8 = 4;

/// An index outside the visible text.
pub const RANGE: u8 = 5;

/// The document doesn't have the number of operations that was asked for.
pub const STALE: u8 = 6;

/// A limit of a request, a clock or the store, or of the versions of a file.
pub const LIMIT: u8 = 7;

/// A commit is under way, or none is through where one is to be settled; the records that wait for
/// a commit leave no room; or too many sessions.
pub const BUSY: u8 = 8;

/// The device failed, and the store must be opened again; or no commit could begin.
pub const FAILED: u8 = 9;

/// No place for kept steps.
pub const STEPS: u8 = 10;

/// A line is longer than a session's line may be.
pub const LINE: u8 = 11;

/// An edit or a merge after a stop.
pub const STOPPING: u8 = 12;

// Of an operation that is merged.

/// The operation is of the own replica, and unknown there.
pub const OWN_UNKNOWN: u8 = 20;

/// The operation's counter isn't greater than that of the last one of its replica.
pub const COUNTER: u8 = 21;

/// The operation names what is no insert of its document that its deps cover.
pub const NAMES: u8 = 22;

/// The operation's document is 0.
pub const DOCUMENT: u8 = 23;

/// A limit of the store would be passed.
pub const STORE_LIMIT: u8 = 24;

// Of a link between peers.

/// A frame that breaks a rule.
pub const BAD_FRAME: u8 = 25;

/// A first frame that is no hello of another replica, or a second hello.
pub const BAD_HELLO: u8 = 26;

/// The link has ended.
pub const CLOSED: u8 = 27;

// Of the record of an operation.

/// The record's length, or a field that reaches past its end.
pub const LENGTH: u8 = 30;

/// No such kind of operation.
pub const KIND: u8 = 31;

/// A counter, a replica, a count or a length out of range.
pub const NUMBER: u8 = 32;

/// No Unicode scalar value.
pub const SCALAR: u8 = 33;

/// A URL that is no UTF-8.
pub const UTF8: u8 = 34;

/// Deps that don't rise.
pub const ORDER: u8 = 35;

/// No such anchor there.
pub const ANCHOR: u8 = 36;

// Of a file and its pages.

/// The page is no data or table page, or not a free one.
pub const PAGE_NUMBER: u8 = 40;

/// The file doesn't have the whole page, or a write of it would begin past the end.
pub const NO_PAGE: u8 = 41;

/// The file has no open slot, or fewer bytes than the two slots take.
pub const NO_ROOT: u8 = 42;

/// The live root body breaks a rule, or two slots are open with equal versions.
pub const BAD_ROOT: u8 = 43;

/// A device call of the store failed before.
pub const STORE_FAILED: u8 = 44;

/// A table page breaks a rule.
pub const BAD_TABLE: u8 = 45;

/// The stream isn't the records that the root says, or its last page isn't filled with zeros.
pub const BAD_STREAM: u8 = 46;

/// An operation isn't ready where it stands, or fails a check.
pub const BAD_OPERATION: u8 = 47;

/// A new store on a file with bytes.
pub const NOT_EMPTY: u8 = 48;

// Of the device.

/// The device failed in this call, in a read or where it tells the file's length.
pub const READ_FAILED: u8 = 50;

/// The device failed in this call, in a write.
pub const WRITE_FAILED: u8 = 51;

/// The device failed in this call, in a sync.
pub const SYNC_FAILED: u8 = 52;

/// A read past the end of the file, or a write that begins past it.
pub const PAST_END: u8 = 53;

/// The file can't be opened or made.
pub const OPEN_FAILED: u8 = 54;

// Of the rest.

/// An operation names no character of the document.
pub const UNKNOWN_ID: u8 = 60;

/// A socket can't be opened, or the peer can't be joined.
pub const SOCKET: u8 = 70;

/// A stream failed: standard input or output, of a session or of a dump, or a session's socket.
pub const STREAM: u8 = 71;
