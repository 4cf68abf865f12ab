//! What a test asks of a peer, as rows of a table.

/// A peer by its place, what is asked of it, and the number that it has to answer.
pub type Row = (usize, Ask, usize);

/// What a case shows, the last bytes of the ids of its peers, and its rows.
pub type Case = (&'static str, &'static [u8], &'static [Row]);

/// What an edit changes.
#[derive(Clone, Copy)]
pub enum Wish {
    /// Inserts a text at an index.
    Insert(u32, &'static str),
    /// Inserts "x" at an index, so many times.
    InsertMany(u32, usize),
    /// Removes, from an index on, this number of characters.
    Delete(u32, u32),
    /// Makes characters strong, from an index up to another.
    Mark(u32, u32),
    /// Takes strong from them.
    Unmark(u32, u32),
}

/// A step over a text: what is kept, dropped or marked, by the number of characters, and what is
/// put.
#[derive(Clone, Copy)]
pub enum Turn {
    Keep(usize),
    Drop(usize),
    Put(&'static str),
    Mark(usize),
}

/// What is asked of a peer. Other peers are named by their places.
#[derive(Clone, Copy)]
pub enum Ask {
    /// An edit of document 1: the rev of its ticket, or 0.
    Edit(Wish),
    /// The same under a token that ends with this byte.
    EditUnder(u8, Wish),
    /// Several changes of document 1 at once: the rev of their ticket, or 0.
    Together(&'static [Wish]),
    /// Which of several changes of document 1 at once is refused, counted from 0.
    RefusedAt(&'static [Wish]),
    /// An edit of a document at a rev: the number of its refusal, or 0.
    Refusal(u32, Option<u32>, Wish),
    /// Edits of document 1, each the same and settled twice: how many are made before one is
    /// refused.
    EditsUntilRefused(Wish),
    /// An edit in two calls, of document 1: how many bytes its records take.
    Put(Wish),
    /// An edit of document 1 that is settled: the settled number.
    Settle(Wish),
    /// A merge of another peer's operation at an index: 0 applied, 2 known, 3 early, or the number
    /// of the refusal.
    Merge(usize, usize),
    /// A merge of an operation that replica 3 never made: a remove of another peer's first
    /// character, on which it doesn't depend.
    MergeRemove(usize),
    /// A merge of another peer's first operation, but of document 0.
    MergeNowhere(usize),
    /// A merge of an insert of another peer, with a counter and a document, that depends on all
    /// that the peer has: behind the first character of some peer, or at the beginning.
    MergeSecond(usize, u64, u32, Option<usize>),
    /// Merges of all operations of another peer: 0.
    MergeAll(usize),
    /// An opening with another peer's operations from an index on: the number of the refusal, or 0.
    Open(usize, usize),
    /// Whether document 1 has a text: 1 or 0.
    HasText(&'static str),
    /// How many operations it has.
    Len,
    /// How many operations a document has.
    Rev(u32),
    /// How many spans document 1 has.
    Spans,
    /// What changed in document 1 since it had so many operations: 1 if it is these steps, 0 if
    /// not, 2 if it isn't told.
    Changes(usize, &'static [Turn]),
    /// How many operations are told to a peer that has nothing.
    Tell,
    /// How many operations are told to a peer with these counts of replicas 1, 2 and 3, if they are
    /// those that a look at each one finds.
    TellBehind([u64; 3]),
    /// Whether the operations before an end are settled: 1 or 0.
    Ack(usize),
    /// Whether the clock told is that of another peer: 1 or 0.
    HasClockOf(usize),
    /// Whether a document has the text and the number of operations that it has at another peer: 1
    /// or 0.
    IsSame(usize, u32),
}
