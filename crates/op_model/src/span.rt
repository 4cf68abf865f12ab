//! A run of characters with equal marks.
use crate::mark::Marks;
use crate::text::Text;

/// A run of visible characters with equal marks.
#[derive(Debug, Drop, PartialEq, Eq)]
pub struct Span {
    pub text: Text,
    pub marks: Marks,
}
