//! A pass.
ghost use Rattle.std.specs.Prelude.{◌≡◌, Some, length, slice_get};
ghost use Rattle.pass_books.specs.Accounts.{newest_of};

use crate::book_names::BookNames;
use crate::share::Share;
use std::marker::{Model, PhantomData};

/// The right to make entries under one number, held by one thread at a time, with the share of that
/// number's book. Contracts see the number, and the entries and the moments, newest first.
#[derive(Drop)]
pub struct Pass<J: BookNames, M> {
    number: usize,
    pub(crate) share: Share<M>,
    of: PhantomData<J>,
}

impl<J: BookNames, M> Model for Pass<J, M> {
    ghost use Rattle.std.specs.Prelude.{◌≡◌, Some, slice_get};
    ghost use Rattle.pass_books.specs.Accounts.{PassHeld};

    ghost Value = { PassHeld M };

    ghost view = { λ p. record {
      number = p.number;
      entries = p.share.entries;
      moments = p.share.moments;
    } };

    ghost invariant = { λ p. slice_get J.names p.number ≡ Some p.share.name };
}

impl<J: BookNames, M> Pass<J, M> {
    /// The pass with the share of this number's book. Takes no memory.
    pub fn of(number: usize, share: Share<M>) -> Pass<J, M>
        requires { slice_get J.names number ≡ Some share.name }
        ensures { result ≡ record {
          number = number;
          entries = share.entries;
          moments = share.moments;
        } }
    {
        Pass {
            number,
            share,
            of: PhantomData,
        }
    }

    /// The number. Takes no memory.
    pub fn number(&self) -> usize
        ensures { result ≡ self.now.number }
    {
        self.number
    }

    /// How many entries were made. Takes no memory.
    pub fn made(&self) -> u64
        ensures { result ≡ length self.now.entries }
    {
        self.share.count()
    }

    /// The newest entry; 0 where there is none. Takes no memory.
    pub fn last(&self) -> u64
        ensures { result ≡ newest_of self.now.entries }
    {
        self.share.newest()
    }
}
