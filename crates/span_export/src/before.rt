//! What stands before a byte of Markdown.
ghost use Rattle.std.specs.Prelude.{◌≡◌};
ghost use Rattle.span_export.specs.Draft.{is_line_start, is_digits, is_sign_end, is_end};
ghost use Rattle.span_export.specs.Draft.{is_text, is_loose};

/// What stands before the next byte of Markdown.
#[derive(Clone, Copy, Debug, PartialEq, Eq)]
pub enum Before {
    /// Nothing of its line.
    LineStart,
    /// Nothing of its line but digits.
    Digits,
    /// A space.
    Space,
    /// A tag or a bracket.
    Tag,
    /// Any other text.
    Word,
    /// The end of emphasis after a letter.
    LetterEnd,
    /// The end of emphasis after any other character.
    SignEnd,
}

impl Before {
    /// Whether nothing of the line stands there.
    pub(crate) fn is_line_start(self) -> bool
        ensures { result ≡ is_line_start self }
    {
        matches!(self, Before::LineStart)
    }

    /// Whether digits stand there, and nothing else of the line.
    pub(crate) fn is_digits(self) -> bool
        ensures { result ≡ is_digits self }
    {
        matches!(self, Before::Digits)
    }

    /// Whether emphasis ended there after a character that is no letter.
    pub(crate) fn is_sign_end(self) -> bool
        ensures { result ≡ is_sign_end self }
    {
        matches!(self, Before::SignEnd)
    }

    /// Whether emphasis ended there.
    pub(crate) fn is_end(self) -> bool
        ensures { result ≡ is_end self }
    {
        matches!(self, Before::LetterEnd | Before::SignEnd)
    }

    /// Whether text stands there that is no space.
    pub(crate) fn is_text(self) -> bool
        ensures { result ≡ is_text self }
    {
        matches!(self, Before::Digits | Before::Word)
    }

    /// Whether white space stands there, which would be lost at the end.
    pub(crate) fn is_loose(self) -> bool
        ensures { result ≡ is_loose self }
    {
        matches!(self, Before::LineStart | Before::Space)
    }
}
