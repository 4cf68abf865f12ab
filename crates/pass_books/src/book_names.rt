//! Which books a type of passes belongs to.

use std::marker::Brand;

/// The names of the books that stand under one lock, by the number of their passes. Whoever opens
/// the books chooses a type of its own, so that no pass is taken to the books of another lock.
pub trait BookNames {
    ghost use Rattle.std.specs.Prelude.{List};
    ghost use Rattle.pass_books.specs.Accounts.{Name};

    ghost names: { List Name };
}

impl BookNames for Brand {
    ghost use Rattle.std.specs.Prelude.{[]};

    ghost names = { [] };
}
