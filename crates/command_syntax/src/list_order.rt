//! The words of `list`.

/// The documents of a store, and the room that is left in it.
#[derive(Clone, Copy, Debug, PartialEq, Eq)]
pub struct ListOrder<'a> {
    pub file: &'a str,
}
