//! What a line of a page may go on with.

use crate::block_starts::Fence;
use crate::html_blocks::End;

/// What the next line may go on with.
#[derive(Clone, Copy, PartialEq, Eq)]
pub(crate) enum Leaf {
    Nothing,
    Paragraph,
    Fenced(Fence),
    /// Code that is indented.
    Indented,
    Html(End),
}

/// A line, in as many containers as it stands in.
#[derive(Clone, Copy)]
pub(crate) struct Line<'a> {
    pub kept: usize,
    pub rest: &'a [char],
    /// Whether it comes right after a line of a paragraph, in the same containers.
    pub is_in_paragraph: bool,
}
