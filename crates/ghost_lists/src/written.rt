//! Lists that only proofs read. They take no memory.
ghost use Rattle.std.specs.Prelude.{◌≡◌, List, [], ◌++◌};
ghost use Rattle.std.specs.Borrow.{ftrue};

use std::marker::{Model, PhantomData};

/// What was written so far, as a list. It means something only by the facts of its owner, which tie
/// it to the file and to what is in memory.
#[derive(Drop)]
pub struct Written<T> {
    of: PhantomData<T>,
    pub ghost items: { List T },
}

impl<T> Model for Written<T> {
    ghost also_owns = { λ _. ftrue };
}

// It owns nothing.
unsafe impl<T: Send> Send for Written<T> {}

impl<T> Written<T> {
    /// Nothing so far.
    pub fn new() -> Written<T>
        ensures { result.items ≡ [] }
    {
        Written { of: PhantomData }
    }

    /// These behind those before. It reads none of them.
    pub fn and(&self, more: &[T]) -> Written<T>
        ensures { result.items ≡ self.now.items ++ more.now }
    {
        Written { of: PhantomData }
    }
}
