//! The blocks of a page, line by line.
ghost use Rattle.std.specs.Prelude.{IfOk};
ghost use Rattle.markdown_reading.specs.Pages.{HaveText};

use crate::block_starts::{
    Fence, fence_of, heading, is_blank_line, is_fence_end, is_rule, is_underline, marker_of, quoted,
};
use crate::characters::is_blank;
use crate::containers::Containers;
use crate::dropped::Kind;
use crate::html_blocks::{End, html_end, html_text, is_empty_mark, is_html_end};
use crate::leaf::{Leaf, Line};
use crate::page::Page;
use crate::paragraphs::Draft;
use crate::scanning::{count_of, skip};
use std::alloc::{AllocError, Global};

/// The indent from which on a line is code.
const CODE_INDENT: usize = 4;

/// A page of which lines were read.
#[derive(Drop)]
pub(crate) struct Blocks {
    containers: Containers,
    leaf: Leaf,
    /// The text of the paragraph or the block of HTML that may go on.
    source: Vec<char>,
    /// How many blank lines came in indented code: they are part of it where code follows.
    blank_lines: usize,
    draft: Draft,
}

impl Blocks {
    /// No line read.
    pub(crate) fn new(alloc: Global) -> Blocks {
        Blocks {
            containers: Containers::new(alloc),
            leaf: Leaf::Nothing,
            source: Vec::new(alloc),
            blank_lines: 0,
            draft: Draft::new(alloc),
        }
    }

    /// Takes a line, without its end. An error is out of memory (1).
    pub(crate) fn take(&mut self, alloc: Global, line: &[char]) -> Result<(), AllocError> {
        let (kept, rest) = self.containers.go_on(line);
        let is_whole = kept == self.containers.count();
        if is_whole && self.goes_on(alloc, rest)? {
            return Ok(());
        }
        let is_in_paragraph = is_whole && self.has_paragraph();
        let line = Line {
            kept,
            rest,
            is_in_paragraph,
        };
        let begun = self.begin_containers(alloc, line)?;
        self.begin_leaf(alloc, begun)
    }

    /// The page. An error is out of memory (1).
    pub(crate) fn finish(mut self, alloc: Global) -> Result<Page, AllocError>
        ensures { IfOk result (λ page. HaveText page.spans.items) }
    {
        self.end_leaf(alloc)?;
        let Blocks { draft, .. } = self;
        draft.finish()
    }

    /// Whether a paragraph may go on.
    fn has_paragraph(&self) -> bool {
        matches!(self.leaf, Leaf::Paragraph)
    }

    /// Whether code or HTML goes on with this line, which it then takes.
    fn goes_on(&mut self, alloc: Global, line: &[char]) -> Result<bool, AllocError> {
        match self.leaf {
            Leaf::Nothing | Leaf::Paragraph => Ok(false),
            Leaf::Fenced(fence) => {
                self.go_on_fenced(alloc, line, fence)?;
                Ok(true)
            }
            Leaf::Indented => self.go_on_indented(alloc, line),
            Leaf::Html(end) => {
                self.go_on_html(alloc, line, end)?;
                Ok(true)
            }
        }
    }

    /// Goes on with code in fences.
    fn go_on_fenced(
        &mut self,
        alloc: Global,
        line: &[char],
        fence: Fence,
    ) -> Result<(), AllocError> {
        let spaces = count_of(line, ' ');
        let text = line.get(spaces..).unwrap_or(line);
        if spaces < CODE_INDENT && is_fence_end(text, fence) {
            self.leaf = Leaf::Nothing;
            return Ok(());
        }
        let code = line.get(spaces.min(fence.indent)..).unwrap_or(line);
        self.draft.add_plain(alloc, code)
    }

    /// Goes on with indented code, or ends it.
    fn go_on_indented(&mut self, alloc: Global, line: &[char]) -> Result<bool, AllocError> {
        if is_blank_line(line) {
            self.blank_lines = self.blank_lines.saturating_add(1);
            return Ok(true);
        }
        if count_of(line, ' ') < CODE_INDENT {
            self.leaf = Leaf::Nothing;
            return Ok(false);
        }
        for _ in 0..self.blank_lines {
            self.draft.add_plain(alloc, &[])?;
        }
        self.add_indented(alloc, line)?;
        Ok(true)
    }

    /// Writes a line of indented code.
    fn add_indented(&mut self, alloc: Global, line: &[char]) -> Result<(), AllocError> {
        self.blank_lines = 0;
        self.draft
            .add_plain(alloc, line.get(CODE_INDENT..).unwrap_or(line))
    }

    /// Goes on with HTML, or ends it.
    fn go_on_html(&mut self, alloc: Global, line: &[char], end: End) -> Result<(), AllocError> {
        if end == End::Blank && is_blank_line(line) {
            return self.end_leaf(alloc);
        }
        self.add_source(line)?;
        if is_html_end(line, end) {
            self.end_leaf(alloc)?;
        }
        Ok(())
    }

    /// Adds a line to the source of a paragraph or a block of HTML.
    fn add_source(&mut self, line: &[char]) -> Result<(), AllocError> {
        if !self.source.is_empty() {
            self.source.push('\n')?;
        }
        self.source.extend_from_slice(line)
    }

    /// Begins the quotes and the items that a line begins, and gives what is left of it.
    fn begin_containers<'a>(
        &mut self,
        alloc: Global,
        line: Line<'a>,
    ) -> Result<Line<'a>, AllocError> {
        let mut inner = line;
        for _ in 0..line.rest.len() {
            match self.begin_container(alloc, inner)? {
                Some(rest) => {
                    inner = Line {
                        kept: self.containers.count(),
                        rest,
                        is_in_paragraph: false,
                    };
                }
                None => break,
            }
        }
        Ok(inner)
    }

    /// Begins a quote or an item, and gives what is left of the line after its mark.
    fn begin_container<'a>(
        &mut self,
        alloc: Global,
        line: Line<'a>,
    ) -> Result<Option<&'a [char]>, AllocError> {
        let spaces = count_of(line.rest, ' ');
        let text = line.rest.get(spaces..).unwrap_or(line.rest);
        if spaces >= CODE_INDENT || self.containers.is_deepest() {
            return Ok(None);
        }
        if let Some(rest) = quoted(text) {
            self.leave(alloc, line.kept)?;
            self.draft.drop_one(Kind::Quote);
            self.containers.begin_quote()?;
            return Ok(Some(rest));
        }
        if is_rule(text) || line.is_in_paragraph && is_underline(text) {
            return Ok(None);
        }
        match marker_of(text) {
            Some(marker) if marker.may_interrupt || !line.is_in_paragraph => {
                self.leave(alloc, line.kept)?;
                self.draft.drop_one(Kind::List);
                self.containers.begin_item(spaces, marker)?;
                Ok(Some(marker.rest))
            }
            _ => Ok(None),
        }
    }

    /// Begins what a line begins, or goes on with a paragraph.
    fn begin_leaf(&mut self, alloc: Global, line: Line<'_>) -> Result<(), AllocError> {
        let spaces = count_of(line.rest, ' ');
        let text = line.rest.get(spaces..).unwrap_or(line.rest);
        if is_blank_line(text) {
            return self.leave(alloc, line.kept);
        }
        if spaces >= CODE_INDENT && !self.has_paragraph() {
            self.begin(alloc, line.kept, Leaf::Indented)?;
            self.draft.drop_one(Kind::Code);
            return self.add_indented(alloc, line.rest);
        }
        if spaces < CODE_INDENT && self.begin_block(alloc, line, text, spaces)? {
            return Ok(());
        }
        if !self.has_paragraph() {
            self.begin(alloc, line.kept, Leaf::Paragraph)?;
        }
        self.add_source(skip(line.rest, is_blank))
    }

    /// Whether a line begins a block other than a paragraph, which is then written or begun.
    fn begin_block(
        &mut self,
        alloc: Global,
        line: Line<'_>,
        text: &[char],
        spaces: usize,
    ) -> Result<bool, AllocError> {
        if line.is_in_paragraph && is_underline(text) {
            self.draft.drop_one(Kind::Heading);
            self.end_leaf(alloc)?;
        } else if let Some(title) = heading(text) {
            self.begin(alloc, line.kept, Leaf::Nothing)?;
            self.draft.drop_one(Kind::Heading);
            self.draft.add(alloc, title)?;
        } else if is_rule(text) {
            self.begin(alloc, line.kept, Leaf::Nothing)?;
            self.draft.drop_one(Kind::Rule);
        } else if let Some(fence) = fence_of(text, spaces) {
            self.begin(alloc, line.kept, Leaf::Fenced(fence))?;
            self.draft.drop_one(Kind::Code);
        } else if let Some(end) = html_end(text, self.has_paragraph()) {
            self.begin(alloc, line.kept, Leaf::Html(end))?;
            self.go_on_html(alloc, line.rest, end)?;
        } else {
            return Ok(false);
        }
        Ok(true)
    }

    /// Begins a leaf in as many containers.
    fn begin(&mut self, alloc: Global, kept: usize, leaf: Leaf) -> Result<(), AllocError> {
        self.leave(alloc, kept)?;
        self.containers.fill();
        self.leaf = leaf;
        Ok(())
    }

    /// Ends what stands there, and all containers but so many.
    fn leave(&mut self, alloc: Global, kept: usize) -> Result<(), AllocError> {
        self.end_leaf(alloc)?;
        self.containers.keep(kept);
        Ok(())
    }

    /// Ends what might have gone on.
    fn end_leaf(&mut self, alloc: Global) -> Result<(), AllocError> {
        match self.leaf {
            Leaf::Paragraph => self.draft.add(alloc, &self.source)?,
            Leaf::Html(_) => self.end_html(alloc)?,
            Leaf::Nothing | Leaf::Fenced(_) | Leaf::Indented => {}
        }
        self.source.clear();
        self.leaf = Leaf::Nothing;
        Ok(())
    }

    /// Ends a block of HTML: what is text in it is a paragraph.
    fn end_html(&mut self, alloc: Global) -> Result<(), AllocError> {
        if is_empty_mark(&self.source) {
            return self.draft.add_plain(alloc, &[]);
        }
        self.draft.drop_one(Kind::Html);
        let text = html_text(alloc, &self.source)?;
        if text.is_empty() {
            return Ok(());
        }
        self.draft.add_plain(alloc, &text)
    }
}
