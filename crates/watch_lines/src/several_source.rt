//! Where the numbers come from of which a session is told that watches several documents.

/// What a source of several documents gives.
#[derive(Clone, Copy, Debug, Drop, PartialEq, Eq)]
pub enum NextOf {
    /// This document has so many settled operations.
    Rev { doc: u32, rev: u64 },
    /// Nothing, so far.
    Quiet,
    /// Nothing more is settled.
    Failed,
    /// Nobody is to be told any more.
    Closed,
}

/// Gives numbers of settled operations of several documents, one after the other.
pub trait SeveralSource {
    ghost use Rattle.watch_lines.specs.declared.several_source.NextOf.{NextOf};

    /// A source may give this: the source before, what it gives, the source after.
    ghost gives: { Self → NextOf → Self → Type 0 };

    /// What comes next, for which it may wait.
    fn next(&mut self) -> NextOf
        ensures { gives self.old result self.new };
}
