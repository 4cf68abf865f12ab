//! The share of a book.
ghost use Rattle.std.specs.Prelude.{◌≡◌, length};
ghost use Rattle.pass_books.specs.Accounts.{newest_of};

use crate::column::ColumnShare;
use ghost_lists::Seen;
use std::marker::Model;

/// A thread's share of a book: it knows its entries, and only both together take another one.
/// Contracts see the name, and the entries and the moments, newest first.
#[derive(Drop)]
pub struct Share<M> {
    pub(crate) numbers: ColumnShare<u64>,
    pub(crate) moments: ColumnShare<Seen<M>>,
    pub(crate) count: u64,
    pub(crate) newest: u64,
}

impl<M> Model for Share<M> {
    ghost use Rattle.std.specs.Prelude.{◌≡◌, length};
    ghost use Rattle.pass_books.specs.Accounts.{Account, account_of, newest_of};

    ghost Value = { Account M };

    ghost view = { λ s. account_of s.numbers s.moments };

    ghost invariant = { λ s. (s.count ≡ length s.numbers.items)
        × (s.newest ≡ newest_of s.numbers.items) };
}

impl<M> Share<M> {
    /// How many entries there are. Takes no memory.
    pub fn count(&self) -> u64
        ensures { result ≡ length self.now.entries }
    {
        self.count
    }

    /// The newest entry; 0 where there is none. Takes no memory.
    pub fn newest(&self) -> u64
        ensures { result ≡ newest_of self.now.entries }
    {
        self.newest
    }
}
