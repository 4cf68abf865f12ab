//! Markdown that is being written.
ghost use Rattle.std.specs.Prelude.{◌≡◌, ◌++◌, IfOk, OnOk};
ghost use Rattle.span_export.specs.Draft.{wrote};
ghost use Rattle.span_export.specs.Putting.{if_wanted};
ghost use Rattle.span_export.specs.Markdown.{blank, finished};
ghost use Rattle.span_export.specs.MarkdownText.{separator};
ghost use Rattle.span_export.specs.MarkdownParagraphs.{paragraph_end, add_break, ended};

use crate::before::Before;
use crate::putting::MOST_BYTES;
use std::alloc::{AllocError, Global};
use std::marker::Model;

/// A tag that shows nothing, and keeps apart what stands before it and after it.
const SEPARATOR: &[u8] = b"<span></span>";

/// A paragraph with no text in it: a comment, which shows nothing and keeps apart what stands
/// before it and after it.
const EMPTY_PARAGRAPH: &[u8] = b"<!-- -->";

/// What ends a paragraph, where this stands before it: an empty one is a comment, and white space
/// is kept from being lost.
fn paragraph_end(before: Before) -> &'static [u8]
    ensures { result.now ≡ paragraph_end before }
{
    if before.is_line_start() {
        EMPTY_PARAGRAPH
    } else if before.is_loose() {
        SEPARATOR
    } else {
        b""
    }
}

/// Markdown that is being written, and what stands before its next byte. After an error it holds
/// some of what was to be written.
#[derive(Debug, Drop)]
pub struct Draft {
    out: Vec<u8>,
    before: Before,
}

impl Model for Draft {
    ghost use Rattle.span_export.specs.Draft.{Written};

    ghost Value = { Written };

    ghost view = { λ d. record { bytes = d.out.items; before = d.before } };
}

impl Draft {
    /// Nothing written yet.
    pub(crate) fn new(alloc: Global) -> Draft
        ensures { result ≡ blank }
    {
        Draft {
            out: Vec::new(alloc),
            before: Before::LineStart,
        }
    }

    /// What stands before the next byte.
    pub(crate) fn before(&self) -> Before
        ensures { result ≡ self.now.before }
    {
        self.before
    }

    /// Whether it takes no more text, since it is too long already.
    pub(crate) fn is_long(&self) -> bool {
        self.out.len() > MOST_BYTES
    }

    /// Writes bytes, after which this stands before the next one.
    pub(crate) fn write(&mut self, bytes: &[u8], before: Before) -> Result<(), AllocError>
        ensures { OnOk result (self.new ≡ wrote bytes.now before self.old) }
    {
        self.out.extend_from_slice(bytes)?;
        self.before = before;
        Ok(())
    }

    /// Writes bytes, where it is wanted after the separator.
    pub(crate) fn write_apart(
        &mut self,
        apart: bool,
        bytes: &[u8],
        before: Before,
    ) -> Result<(), AllocError>
        ensures { OnOk result
            (self.new ≡ wrote (if_wanted apart separator ++ bytes.now) before self.old) }
    {
        if apart {
            self.out.extend_from_slice(SEPARATOR)?;
        }
        self.out.extend_from_slice(bytes)?;
        self.before = before;
        Ok(())
    }

    /// Writes the end of a paragraph, and what stands between it and the next.
    pub(crate) fn write_break(&mut self) -> Result<(), AllocError>
        ensures { OnOk result (self.new ≡ add_break self.old) }
    {
        self.out.extend_from_slice(paragraph_end(self.before))?;
        self.write(b"\n\n", Before::LineStart)
    }

    /// The text with the end of its last paragraph.
    pub(crate) fn end(self) -> Result<Vec<u8>, AllocError>
        ensures { IfOk result (λ page. page.items ≡ ended self) }
    {
        let Draft { mut out, before } = self;
        out.extend_from_slice(paragraph_end(before))?;
        out.extend_from_slice(b"\n")?;
        Ok(out)
    }

    /// The text with its end, where it has breaks of the line in place of paragraphs.
    pub(crate) fn finish(self) -> Result<Vec<u8>, AllocError>
        ensures { IfOk result (λ page. page.items ≡ finished self) }
    {
        let Draft { mut out, before } = self;
        if before.is_loose() && !out.is_empty() {
            out.extend_from_slice(SEPARATOR)?;
        }
        out.extend_from_slice(b"\n")?;
        Ok(out)
    }
}
