//! A column of a book, and its other end.
ghost use Rattle.std.specs.Prelude.{◌≡◌, [], IfOk};
ghost use Rattle.pass_books.specs.Accounts.{with_item};

use rtrb::{Consumer, Producer, RingBuffer};
use std::alloc::{AllocError, Global};
use std::marker::Model;

/// A column of a book that stands under a lock. Contracts see its name and what was entered, newest
/// first: that of the other end that has its name.
#[derive(Drop)]
pub(crate) struct Column<T> {
    // The other end is the share's. It is empty between two calls.
    ring: Consumer<T>,
}

impl<T> Model for Column<T> {
    ghost use Rattle.std.specs.Prelude.{◌≡◌, []};
    ghost use Rattle.rtrb.specs.Ring.{known_items, consumer_capacity};
    ghost use Rattle.pass_books.specs.Accounts.{ColumnHeld, column_of};

    ghost Value = { ColumnHeld T };

    ghost view = { λ c. column_of c.ring };

    ghost invariant = { λ c. (consumer_capacity c.ring ≡ 1) × (known_items c.ring ≡ []) };
}

/// A thread's end of a column: only both ends together take another item. Contracts see the name
/// and what was entered, newest first.
#[derive(Drop)]
pub(crate) struct ColumnShare<T> {
    // The other end is the book's. It is empty between two calls.
    ring: Producer<T>,
}

impl<T> Model for ColumnShare<T> {
    ghost use Rattle.std.specs.Prelude.{◌≡◌};
    ghost use Rattle.rtrb.specs.Ring.{known_free, producer_capacity};
    ghost use Rattle.pass_books.specs.Accounts.{ColumnHeld, share_of};

    ghost Value = { ColumnHeld T };

    ghost view = { λ s. share_of s.ring };

    ghost invariant = { λ s. (producer_capacity s.ring ≡ 1) × (known_free s.ring ≡ 1) };
}

/// A column in which nothing is entered, and its other end. An error is out of memory (1); no other
/// call takes any.
pub(crate) fn open<T: Drop>(alloc: Global) -> Result<(Column<T>, ColumnShare<T>), AllocError>
    ensures name { IfOk result (λ it. it.0.name ≡ it.1.name) }
    ensures column { IfOk result (λ it. it.0.items ≡ []) }
    ensures share { IfOk result (λ it. it.1.items ≡ []) }
{
    let (producer, consumer) = RingBuffer::new(alloc, 1)?;
    Ok((Column { ring: consumer }, ColumnShare { ring: producer }))
}

impl<T: Drop> Column<T> {
    /// Shows that both ends of the same name have the same items. Constant; takes no memory.
    pub(crate) fn audit(&mut self, share: &mut ColumnShare<T>)
        requires name { self.old.name ≡ share.old.name }
        ensures same { self.old.items ≡ share.old.items }
        ensures column { self.new ≡ self.old }
        ensures share { share.new ≡ share.old }
    {
        share.ring.slots_beside(&mut self.ring);
        self.ring.slots_beside(&mut share.ring);
    }

    /// Enters an item at both ends. Constant; takes no memory.
    pub(crate) fn add(&mut self, share: &mut ColumnShare<T>, item: T)
        requires name { self.old.name ≡ share.old.name }
        ensures same { self.old.items ≡ share.old.items }
        ensures column { self.new ≡ with_item self.old item }
        ensures share { share.new ≡ with_item share.old item }
    {
        self.audit(share);
        share.ring.push_reserved(item);
        self.ring.slots_beside(&mut share.ring);
        self.ring.pop_known();
        share.ring.slots_beside(&mut self.ring);
        self.ring.slots_beside(&mut share.ring);
    }
}
