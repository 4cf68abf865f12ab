//! What a disk remembers of its calls. Only proofs read it: it takes no memory.
ghost use Rattle.std.specs.Prelude.{◌≡◌, ◌+◌, ℕ, List, [], ◌∷◌};
ghost use Rattle.std.specs.Borrow.{ftrue};

use crate::DiskError;
use std::marker::{Model, PhantomData};

/// How many failures, writes and syncs a call adds.
#[derive(Clone, Copy)]
pub(crate) struct Added {
    pub failures: u8,
    pub writes: u8,
    pub syncs: u8,
}

pub(crate) struct Log<S> {
    of: PhantomData<S>,
    /// The state in which each call so far found the disk, the newest first.
    pub ghost found: { List S },
    pub ghost failures: { ℕ },
    pub ghost writes: { ℕ },
    pub ghost syncs: { ℕ },
}

impl<S> Model for Log<S> {
    ghost also_owns = { λ _. ftrue };
}

impl<S> Drop for Log<S> {
    fn drop(self) {
        let Log { of: _ } = self;
    }
}

impl Added {
    ghost use Rattle.disk_trait.specs.Calls.{failed, begun};

    /// By a call that writes and settles nothing.
    pub(crate) fn by_look<T>(answer: &Result<T, DiskError>) -> Added
        ensures { result ≡ record { failures = failed answer.now; writes = 0; syncs = 0 } }
    {
        Added {
            failures: count_of_failures(answer),
            writes: 0,
            syncs: 0,
        }
    }

    pub(crate) fn by_write(answer: &Result<(), DiskError>) -> Added
        ensures { result ≡ record {
          failures = failed answer.now;
          writes = begun answer.now;
          syncs = 0;
        } }
    {
        Added {
            failures: count_of_failures(answer),
            writes: match answer {
                Err(DiskError::PastEnd) => 0,
                _ => 1,
            },
            syncs: 0,
        }
    }

    pub(crate) fn by_sync(answer: &Result<(), DiskError>) -> Added
        ensures { result ≡ record { failures = failed answer.now; writes = 0; syncs = 1 } }
    {
        Added {
            failures: count_of_failures(answer),
            writes: 0,
            syncs: 1,
        }
    }
}

ghost use Rattle.disk_trait.specs.Calls.{failed};

fn count_of_failures<T>(answer: &Result<T, DiskError>) -> u8
    ensures { result ≡ failed answer.now }
{
    match answer {
        Ok(_) | Err(DiskError::PastEnd) => 0,
        Err(_) => 1,
    }
}

impl<S> Log<S> {
    ghost use Rattle.disk_trait.specs.Past.{called};

    /// No call so far.
    pub(crate) fn new() -> Log<S>
        ensures { result ≡ record {
          of = record {};
          found = [];
          failures = 0;
          writes = 0;
          syncs = 0;
        } }
    {
        Log { of: PhantomData }
    }

    /// One more call, which found the disk in this state.
    pub(crate) fn and(&self, found: &S, added: &Added) -> Log<S>
        ensures { result
            ≡ called found.now added.now.failures added.now.writes added.now.syncs self.now }
    {
        self.begin(found).end(added)
    }

    /// A call that finds the disk in this state.
    pub(crate) fn begin(&self, found: &S) -> Log<S>
        ensures { result ≡ record self.now { found = found.now ∷ self.now.found } }
    {
        Log { of: PhantomData }
    }

    /// What came of that call.
    pub(crate) fn end(&self, added: &Added) -> Log<S>
        ensures { result ≡ record self.now {
          failures = self.now.failures + added.now.failures;
          writes = self.now.writes + added.now.writes;
          syncs = self.now.syncs + added.now.syncs;
        } }
    {
        Log { of: PhantomData }
    }
}
