//! What a test asks of hubs, as rows of a table.
use disk_trait::Fate;

/// A hub by its place, what is asked of it, and the number that it has to answer.
pub(crate) type Row = (usize, Ask, usize);

/// What a case shows, the last bytes of the ids of its hubs, and its rows.
pub(crate) type Case = (&'static str, &'static [u8], &'static [Row]);

/// What a case shows of a hub of which the device call with this number fails, and its rows.
pub(crate) type FailingCase = (&'static str, u64, &'static [Row]);

/// A call of a list of calls, and the word for its reply.
pub(crate) type Said = (Call, &'static str);

/// What is asked of a hub. Where nothing else is said it answers 0, or the number of its refusal.
#[derive(Clone, Copy)]
pub(crate) enum Ask {
    /// An insert of a character into document 1, at an index.
    Insert(u32, char),
    /// An insert of "a" so many times, at an index.
    InsertMany(u32, usize),
    /// So many inserts of 256 characters, each behind the others, the first at the beginning.
    Fill(u32),
    /// An insert of a character at the beginning, under a token that ends with this byte, which
    /// is made now: the end of its ticket.
    Under(u8, char),
    /// The same of an edit that was made before: whether its ticket has this end and this rev, 1
    /// or 0.
    Again(u8, char, usize, usize),
    /// The beginning of a commit.
    Begin,
    /// A device call of the commit.
    Step,
    /// The settlement of the commit.
    Settle,
    /// A whole commit, where something isn't settled.
    Commit,
    /// A commit of another hub, and merges of what it tells: how many operations.
    Take(usize),
    /// A merge of an operation, by its index, of a new replica with this last byte that typed
    /// these characters, each in front of the others: 0 applied, 2 known, 3 early, or the number
    /// of the refusal.
    MergeOf(u8, &'static str, usize),
    /// A merge of an insert of replica 2 with a counter and a document, which depends on that
    /// replica's first operation, and stands behind the first one of replica 1 if that is said.
    MergeSecond(u64, u32, bool),
    /// The first calls, as many as said, of this list, made at once: how many replies are as the
    /// list says before one isn't.
    Run(&'static [Said], usize),
    /// Whether document 1 shows this text: 1 or 0.
    Shows(&'static str),
    /// How many operations it has.
    Len,
    /// Of how many replicas its clock counts operations.
    Replicas,
    /// How many operations are settled.
    Settled,
    /// Whether it tells its clock: 1 or 0.
    Have,
    /// A crash with this fate of what no sync settled, and an opening of the file.
    Crash(Fate, bool),
    /// An opening of the file anew.
    Reopen,
}

/// A call of a list of calls.
#[derive(Clone, Copy)]
pub(crate) enum Call {
    /// An insert of a character into document 1, at an index.
    Insert(u32, char),
    Begin,
    Step,
    Settle,
    /// The acknowledgement of the first edit.
    Ack,
    /// A merge of what a new replica with this last byte that typed "a" tells the hub.
    MergeOf(u8),
}
