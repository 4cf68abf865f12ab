//! Where the numbers come from of which a session is told.

/// What a source gives.
#[derive(Clone, Copy, Debug, Drop, PartialEq, Eq)]
pub enum Next {
    /// The document has so many settled operations.
    Rev(u64),
    /// Nothing, so far.
    Quiet,
    /// Nothing more is settled.
    Failed,
    /// Nobody is to be told any more.
    Closed,
}

/// Gives numbers of a document's settled operations, one after the other.
pub trait Source {
    ghost use Rattle.watch_lines.specs.declared.source.Next.{Next};

    /// A source may give this: the source before, what it gives, the source after.
    ghost gives: { Self → Next → Self → Type 0 };

    /// What comes next, for which it may wait. `told` is the last number that was told: there is no
    /// need for one that isn't above it.
    fn next(&mut self, told: Option<u64>) -> Next
        ensures { gives self.old result self.new };
}
