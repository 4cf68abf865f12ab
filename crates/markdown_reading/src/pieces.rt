//! What a paragraph's source is made of.
use op_model::Url;

/// A part of a paragraph, in the order of its source.
#[derive(Clone, Copy, PartialEq, Eq)]
pub(crate) enum Piece {
    /// A character that is shown.
    Shown(char),
    /// A run of stars or underscores, by its number.
    Run(usize),
    /// A bracket that may begin a link, by its number.
    Open(usize),
    /// The end of the link or the image that this bracket begins.
    Close(usize),
}

/// What became of a bracket that may begin a link.
#[derive(Drop, PartialEq, Eq)]
pub(crate) enum Bracket {
    /// It is shown as it was written.
    Text,
    /// It begins a link, which leads nowhere if there is no address.
    Link(Option<Url>),
    /// It is shown as it was written, after an exclamation mark.
    ImageText,
    /// It begins an image.
    Image,
}

impl Bracket {
    /// Whether it was an image that it might begin.
    pub(crate) fn is_of_image(&self) -> bool {
        matches!(self, Bracket::ImageText | Bracket::Image)
    }

    /// Whether it begins a link or an image.
    pub(crate) fn is_open(&self) -> bool {
        matches!(self, Bracket::Link(_) | Bracket::Image)
    }
}
