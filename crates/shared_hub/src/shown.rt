//! What a document shows.

/// What a document shows, and how many operations it has.
#[derive(Debug, Drop)]
pub struct Shown<T> {
    pub rev: u64,
    pub content: T,
}
