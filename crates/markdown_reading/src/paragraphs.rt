//! Paragraphs that are being written.
ghost use Rattle.std.specs.Prelude.{IfOk};
ghost use Rattle.markdown_reading.specs.Pages.{HaveText};

use crate::characters::is_space;
use crate::dropped::{Dropped, Kind};
use crate::emphasis::pair;
use crate::inline::Inline;
use crate::page::Page;
use crate::pieces::{Bracket, Piece};
use crate::runs::Run;
use crate::scanning::trimmed;
use crate::span_writer::{SpanWriter, Style};
use std::alloc::{AllocError, Global};

/// A page that is being written: a line feed stands between two paragraphs.
#[derive(Drop)]
pub(crate) struct Draft {
    writer: SpanWriter,
    dropped: Dropped,
    is_begun: bool,
}

/// What is emphasised at a place, how often, and the link there. A link around it, as one may stand
/// around an address that shows itself, goes on after it.
#[derive(Clone, Copy)]
struct Depth {
    em: usize,
    strong: usize,
    link: Option<usize>,
    around: Option<usize>,
}

impl Depth {
    /// Within a link, by its number.
    fn within(self, number: usize) -> Depth {
        Depth {
            em: self.em,
            strong: self.strong,
            link: Some(number),
            around: self.link,
        }
    }

    /// After a link.
    fn after(self) -> Depth {
        Depth {
            em: self.em,
            strong: self.strong,
            link: self.around,
            around: None,
        }
    }
}

impl Draft {
    /// An empty page.
    pub(crate) fn new(alloc: Global) -> Draft {
        Draft {
            writer: SpanWriter::new(alloc),
            dropped: Dropped::none(),
            is_begun: false,
        }
    }

    /// Counts what isn't kept.
    pub(crate) fn drop_one(&mut self, kind: Kind) {
        self.dropped.count(kind);
    }

    /// The page that was written.
    pub(crate) fn finish(self) -> Result<Page, AllocError>
        ensures { IfOk result (λ page. HaveText page.spans.items) }
    {
        let Draft {
            writer,
            dropped,
            ..
        } = self;
        Ok(Page {
            spans: writer.finish()?,
            dropped,
        })
    }

    /// Begins a paragraph.
    fn begin(&mut self, alloc: Global) -> Result<(), AllocError> {
        if self.is_begun {
            self.writer.put(alloc, '\n', Style::plain())?;
        }
        self.is_begun = true;
        Ok(())
    }

    /// Writes a paragraph of characters as they stand.
    pub(crate) fn add_plain(&mut self, alloc: Global, text: &[char]) -> Result<(), AllocError> {
        self.begin(alloc)?;
        for character in text {
            self.writer.put(alloc, *character, Style::plain())?;
        }
        Ok(())
    }

    /// Writes a paragraph by its source.
    pub(crate) fn add(&mut self, alloc: Global, source: &[char]) -> Result<(), AllocError> {
        self.begin(alloc)?;
        let text = trimmed(source, is_space);
        let mut inline = Inline::read(alloc, text, self.dropped)?;
        self.dropped = inline.dropped;
        pair(
            alloc,
            &inline.pieces,
            &inline.brackets.all,
            &mut inline.runs,
        )?;
        self.put_pieces(alloc, &inline)
    }

    /// Writes the pieces of a paragraph.
    fn put_pieces(&mut self, alloc: Global, inline: &Inline) -> Result<(), AllocError> {
        let mut depth = Depth {
            em: 0,
            strong: 0,
            link: None,
            around: None,
        };
        let brackets = inline.brackets.all.as_slice();
        for piece in &inline.pieces {
            match *piece {
                Piece::Shown(character) => self.put(alloc, character, depth, brackets)?,
                Piece::Run(number) => {
                    if let Some(run) = inline.runs.get(number) {
                        depth = self.put_run(alloc, run, depth, brackets)?;
                    }
                }
                Piece::Open(number) => {
                    depth = self.put_bracket(alloc, number, depth, brackets)?;
                }
                Piece::Close(number) => {
                    if matches!(brackets.get(number), Some(Bracket::Link(_))) {
                        depth = depth.after();
                    }
                }
            }
        }
        Ok(())
    }

    /// Writes a character at a depth.
    fn put(
        &mut self,
        alloc: Global,
        character: char,
        depth: Depth,
        brackets: &[Bracket],
    ) -> Result<(), AllocError> {
        let link = match depth.link.and_then(|number| brackets.get(number)) {
            Some(Bracket::Link(Some(url))) => Some(url),
            _ => None,
        };
        let style = Style {
            strong: depth.strong > 0,
            em: depth.em > 0,
            link,
        };
        self.writer.put(alloc, character, style)
    }

    /// Writes what is left of a run, and gives the depth after it.
    fn put_run(
        &mut self,
        alloc: Global,
        run: &Run,
        depth: Depth,
        brackets: &[Bracket],
    ) -> Result<Depth, AllocError> {
        let ended = Depth {
            em: depth.em.saturating_sub(run.em_ends),
            strong: depth.strong.saturating_sub(run.strong_ends),
            link: depth.link,
            around: depth.around,
        };
        for _ in 0..run.left {
            self.put(alloc, run.mark, ended, brackets)?;
        }
        Ok(Depth {
            em: ended.em.saturating_add(run.em_begins),
            strong: ended.strong.saturating_add(run.strong_begins),
            link: ended.link,
            around: ended.around,
        })
    }

    /// Writes a bracket that begins nothing, or gives the depth in what it begins.
    fn put_bracket(
        &mut self,
        alloc: Global,
        number: usize,
        depth: Depth,
        brackets: &[Bracket],
    ) -> Result<Depth, AllocError> {
        match brackets.get(number) {
            Some(Bracket::Link(_)) => return Ok(depth.within(number)),
            Some(Bracket::ImageText) => {
                self.put(alloc, '!', depth, brackets)?;
                self.put(alloc, '[', depth, brackets)?;
            }
            Some(Bracket::Text) => self.put(alloc, '[', depth, brackets)?,
            Some(Bracket::Image) | None => {}
        }
        Ok(depth)
    }
}
