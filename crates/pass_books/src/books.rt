//! The books of all passes.
ghost use Rattle.std.specs.Prelude.{◌≡◌, ◌<◌, ◌∷◌, Some, length, slice_get, slice_set};
ghost use Rattle.pass_books.specs.Accounts.{names_of, books_of};

use crate::book::Book;
use crate::book_names::BookNames;
use crate::pass::Pass;
use std::marker::{Model, PhantomData};

/// The books of all passes, as they stand under a lock. Contracts see the entries and the moments
/// of each, by number, newest first.
#[derive(Drop)]
pub struct Books<J: BookNames, M> {
    books: Vec<Book<M>>,
    of: PhantomData<J>,
}

impl<J: BookNames, M> Model for Books<J, M> {
    ghost use Rattle.std.specs.Prelude.{◌≡◌};
    ghost use Rattle.pass_books.specs.Accounts.{BooksHeld, names_of, books_of};

    ghost Value = { BooksHeld M };

    ghost view = { λ b. books_of b.books.items };

    ghost invariant = { λ b. names_of b.books.items ≡ J.names };
}

impl<J: BookNames, M> Books<J, M> {
    /// These books, by number. Takes no memory.
    pub fn of(books: Vec<Book<M>>) -> Books<J, M>
        requires { names_of books.items ≡ J.names }
        ensures { result ≡ books_of books.items }
    {
        Books {
            books,
            of: PhantomData,
        }
    }

    /// Shows that the book of a pass's number has the entries and the moments that the pass has.
    /// Constant; takes no memory.
    pub fn audit(&mut self, pass: &mut Pass<J, M>)
        ensures entries { slice_get self.old.entries pass.old.number ≡ Some pass.old.entries }
        ensures moments { slice_get self.old.moments pass.old.number ≡ Some pass.old.moments }
        ensures books { self.new ≡ self.old }
        ensures pass { pass.new ≡ pass.old }
    {
        let number = pass.number();
        self.books[number].audit(&mut pass.share);
    }

    /// Enters a number into a pass and into its book. Constant; takes no memory.
    pub fn add(&mut self, pass: &mut Pass<J, M>, entry: u64)
        requires few { length pass.old.entries < 18446744073709551615 }
        ensures pass { pass.new ≡ record pass.old { entries = entry ∷ pass.old.entries } }
        ensures books { self.new ≡ record self.old {
          entries = slice_set self.old.entries pass.old.number (entry ∷ pass.old.entries);
        } }
    {
        let number = pass.number();
        self.books[number].add(&mut pass.share, entry);
    }

    /// Enters into a pass and into its book the moment at which a value is as it is now. Constant;
    /// takes no memory.
    pub fn enter(&mut self, pass: &mut Pass<J, M>, value: &M)
        ensures pass { pass.new ≡ record pass.old { moments = value.now ∷ pass.old.moments } }
        ensures books { self.new ≡ record self.old {
          moments = slice_set self.old.moments pass.old.number (value.now ∷ pass.old.moments);
        } }
    {
        let number = pass.number();
        self.books[number].enter(&mut pass.share, value);
    }
}
