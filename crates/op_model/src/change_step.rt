//! What became of a text that a reader has.
use crate::mark::Marks;
use crate::span::Span;

/// A step over the text that a reader has, from left to right: what becomes of its next characters,
/// or what comes before them. The numbers count characters, and are at least 1 in what a replica
/// tells.
#[derive(Debug, Drop, PartialEq, Eq)]
pub enum ChangeStep {
    /// So many characters stay as they are.
    Keep(usize),
    /// So many characters go.
    Drop(usize),
    /// These characters come here, and have these marks.
    Put(Span),
    /// So many characters stay, and have these marks from now on.
    Mark(usize, Marks),
}
