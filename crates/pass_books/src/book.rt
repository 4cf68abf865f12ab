//! A book, and how it is opened.
ghost use Rattle.std.specs.Prelude.{◌≡◌, ◌<◌, [], length, IfOk};
ghost use Rattle.pass_books.specs.Accounts.{with_entry, with_moment};

use crate::column::{self, Column};
use crate::share::Share;
use ghost_lists::Seen;
use std::alloc::{AllocError, Global};
use std::marker::Model;

/// A book that stands under a lock. Contracts see its name, and its entries and its moments, newest
/// first: those of the share that has its name. A moment is a value as it was when it was entered;
/// it takes no bytes, so only contracts read it.
#[derive(Drop)]
pub struct Book<M> {
    numbers: Column<u64>,
    moments: Column<Seen<M>>,
}

impl<M> Model for Book<M> {
    ghost use Rattle.pass_books.specs.Accounts.{Account, account_of};

    ghost Value = { Account M };

    ghost view = { λ b. account_of b.numbers b.moments };
}

/// A book without entries and moments, and the share of it. An error is out of memory (1); no other
/// call takes any.
pub fn open<M>(alloc: Global) -> Result<(Book<M>, Share<M>), AllocError>
    ensures name { IfOk result (λ it. it.0.name ≡ it.1.name) }
    ensures book { IfOk result (λ it. (it.0.entries ≡ []) × (it.0.moments ≡ [])) }
    ensures share { IfOk result (λ it. (it.1.entries ≡ []) × (it.1.moments ≡ [])) }
{
    let (numbers, share_of_numbers) = column::open(alloc)?;
    let (moments, share_of_moments) = column::open(alloc)?;
    let share = Share {
        numbers: share_of_numbers,
        moments: share_of_moments,
        count: 0,
        newest: 0,
    };
    Ok((Book { numbers, moments }, share))
}

impl<M> Book<M> {
    /// Shows that the book and the share of its name have the same entries and moments. Constant;
    /// takes no memory.
    pub fn audit(&mut self, share: &mut Share<M>)
        requires name { self.old.name ≡ share.old.name }
        ensures entries { self.old.entries ≡ share.old.entries }
        ensures moments { self.old.moments ≡ share.old.moments }
        ensures book { self.new ≡ self.old }
        ensures share { share.new ≡ share.old }
    {
        self.numbers.audit(&mut share.numbers);
        self.moments.audit(&mut share.moments);
    }

    /// Enters a number into the book and its share. Constant; takes no memory.
    pub fn add(&mut self, share: &mut Share<M>, entry: u64)
        requires name { self.old.name ≡ share.old.name }
        requires few { length share.old.entries < 18446744073709551615 }
        ensures same { self.old.entries ≡ share.old.entries }
        ensures book { self.new ≡ with_entry self.old entry }
        ensures share { share.new ≡ with_entry share.old entry }
    {
        self.numbers.add(&mut share.numbers, entry);
        share.count += 1;
        share.newest = entry;
    }

    /// Enters the moment at which a value is as it is now. Constant; takes no memory.
    pub fn enter(&mut self, share: &mut Share<M>, value: &M)
        requires { self.old.name ≡ share.old.name }
        ensures same { self.old.moments ≡ share.old.moments }
        ensures book { self.new ≡ with_moment self.old value.now }
        ensures share { share.new ≡ with_moment share.old value.now }
    {
        self.moments.add(&mut share.moments, Seen::of(value));
    }
}
