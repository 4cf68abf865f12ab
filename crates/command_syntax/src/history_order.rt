//! The words of `history`.

/// The versions of a document of a store, by its number from 1 on, of at most so many operations
/// each, 1 or more.
#[derive(Clone, Copy, Debug, PartialEq, Eq)]
pub struct HistoryOrder<'a> {
    pub file: &'a str,
    pub doc: u32,
    pub every: u32,
}
