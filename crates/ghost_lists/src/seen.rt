//! Values that only proofs read. They take no memory.
ghost use Rattle.std.specs.Prelude.{◌≡◌};
ghost use Rattle.std.specs.Borrow.{ftrue};

use std::marker::{Model, PhantomData};

/// A value as it was when it was seen. Nothing is copied.
#[derive(Drop)]
pub struct Seen<T> {
    of: PhantomData<T>,
    pub ghost value: { T },
}

impl<T> Model for Seen<T> {
    ghost also_owns = { λ _. ftrue };
}

// It owns nothing.
unsafe impl<T: Send> Send for Seen<T> {}

impl<T> Seen<T> {
    /// The value as it is now. It isn't read.
    pub fn of(value: &T) -> Seen<T>
        ensures { result.value ≡ value.now }
    {
        Seen { of: PhantomData }
    }
}
