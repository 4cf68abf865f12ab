//! Spans that are being written.
ghost use Rattle.std.specs.Prelude.{IfOk};
ghost use Rattle.markdown_reading.specs.Pages.{HaveText};

use op_model::{CommentIds, Marks, Span, Text, Url};
use std::alloc::{AllocError, Global};

/// The marks of a character that is written.
#[derive(Clone, Copy)]
pub(crate) struct Style<'a> {
    pub strong: bool,
    pub em: bool,
    pub link: Option<&'a Url>,
}

impl<'a> Style<'a> {
    /// No marks.
    pub(crate) fn plain() -> Style<'a> {
        Style {
            strong: false,
            em: false,
            link: None,
        }
    }

    /// Whether these are just those marks.
    fn is(&self, marks: &Marks) -> bool {
        if self.strong != marks.strong || self.em != marks.em {
            return false;
        }
        match (self.link, &marks.link) {
            (None, None) => true,
            (Some(url), Some(other)) => url == other,
            _ => false,
        }
    }

    /// The marks.
    fn marks(&self, alloc: Global) -> Result<Marks, AllocError> {
        let link = match self.link {
            Some(url) => Some(url.copy()?),
            None => None,
        };
        Ok(Marks {
            strong: self.strong,
            em: self.em,
            link,
            comments: CommentIds::from(Vec::new(alloc)),
        })
    }
}

/// Spans that are being written: those that are whole, and the characters and marks of the last
/// one. It has no characters where nothing was written.
#[derive(Drop)]
pub(crate) struct SpanWriter {
    whole: Vec<Span>,
    text: Vec<char>,
    marks: Marks,
    ghost some: { HaveText whole.items },
}

impl SpanWriter {
    /// Nothing written.
    pub(crate) fn new(alloc: Global) -> SpanWriter {
        SpanWriter {
            whole: Vec::new(alloc),
            text: Vec::new(alloc),
            marks: Marks {
                strong: false,
                em: false,
                link: None,
                comments: CommentIds::from(Vec::new(alloc)),
            },
        }
    }

    /// Writes a character. An error is out of memory (1).
    pub(crate) fn put(
        &mut self,
        alloc: Global,
        character: char,
        style: Style<'_>,
    ) -> Result<(), AllocError> {
        if !style.is(&self.marks) {
            self.turn(alloc, style)?;
        }
        self.text.push(character)?;
        Ok(())
    }

    /// Ends the last span, and begins one with other marks.
    fn turn(&mut self, alloc: Global, style: Style<'_>) -> Result<(), AllocError> {
        let marks = style.marks(alloc)?;
        let marks = std::mem::replace(&mut self.marks, marks);
        if self.text.is_empty() {
            return Ok(());
        }
        let text = std::mem::replace(&mut self.text, Vec::new(alloc));
        self.whole
            .push(Span {
                text: Text::from(text),
                marks,
            })
            .map_err(AllocError::from)
    }

    /// All spans. An error is out of memory (1).
    pub(crate) fn finish(self) -> Result<Vec<Span>, AllocError>
        ensures { IfOk result (λ spans. HaveText spans.items) }
    {
        let SpanWriter {
            mut whole,
            text,
            marks,
        } = self;
        if !text.is_empty() {
            whole
                .push(Span {
                    text: Text::from(text),
                    marks,
                })
                .map_err(AllocError::from)?;
        }
        Ok(whole)
    }
}
