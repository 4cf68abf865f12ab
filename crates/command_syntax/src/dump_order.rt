//! The words of `dump`.

/// The text and the spans of a document of a store, by its number from 1 on.
#[derive(Clone, Copy, Debug, PartialEq, Eq)]
pub struct DumpOrder<'a> {
    pub file: &'a str,
    pub doc: u32,
}
