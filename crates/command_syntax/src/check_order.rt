//! The words of `check`.

/// What the opening of a store finds.
#[derive(Clone, Copy, Debug, PartialEq, Eq)]
pub struct CheckOrder<'a> {
    pub file: &'a str,
}
