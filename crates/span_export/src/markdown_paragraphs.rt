//! A document's spans as Markdown with paragraphs.
ghost use Rattle.std.specs.Prelude.{◌≡◌, ◌++◌, [], IfOk, OnOk, codes};
ghost use Rattle.span_export.specs.Markdown.{add_spans};
ghost use Rattle.span_export.specs.MarkdownParagraphs.{add_parts, markdown_paragraphs};
ghost use Rattle.span_export.specs.Paragraphs.{part, parted_from, parted, spaced_text_of};
ghost use Rattle.span_export.specs.Reading.{plain, read_markdown};

use crate::draft::Draft;
use crate::markdown_span::add_marked;
use crate::text_part::between;
use op_model::{Marks, Span};
use std::alloc::{AllocError, Global};

/// Spans as Markdown (CommonMark) in paragraphs, one more than there are line feeds, with an empty
/// line between two: an empty one is a comment, `<!-- -->`. A span is written as `add_span` says,
/// in each paragraph by itself. An error is out of memory (1), or a page of over 268,435,456 bytes.
/// The time is that of the page's length, which has the tags of a span once for each of its lines.
pub(crate) fn markdown_paragraphs(alloc: Global, spans: &[Span]) -> Result<Vec<u8>, AllocError>
    ensures page { IfOk result (λ page. page.items ≡ markdown_paragraphs spans.now) }
    ensures shows { IfOk result (λ page.
        read_markdown plain page.items ≡ spaced_text_of spans.now ++ codes "\n") }
{
    let mut draft = Draft::new(alloc);
    add_parted(alloc, spans, &mut draft)?;
    draft.end()
}

/// Writes spans, and a break between two paragraphs for each line feed.
fn add_parted(alloc: Global, spans: &[Span], draft: &mut Draft) -> Result<(), AllocError>
    ensures { OnOk result (draft.new ≡ add_parts (parted spans.now) draft.old) }
{
    for span in spans {
        add_parted_span(alloc, span.text.as_slice(), &span.marks, draft)?;
    }
    Ok(())
}

/// Writes a span of these characters, and a break between two paragraphs for each line feed.
fn add_parted_span(
    alloc: Global,
    text: &[char],
    marks: &Marks,
    draft: &mut Draft,
) -> Result<(), AllocError>
    ensures { OnOk result
        (draft.new ≡ add_parts (parted_from [] text.now marks.now) draft.old) }
{
    let mut start = 0;
    for (i, character) in text.iter().enumerate() {
        if *character == '\n' {
            add_part(alloc, between(text, start, i), marks, draft)?;
            draft.write_break()?;
            start = i + 1;
        }
    }
    add_part(alloc, between(text, start, text.len()), marks, draft)
}

/// Writes characters of a paragraph, if there are some, and the page isn't too long already.
fn add_part(
    alloc: Global,
    text: &[char],
    marks: &Marks,
    draft: &mut Draft,
) -> Result<(), AllocError>
    ensures { OnOk result (draft.new ≡ add_spans (part text.now marks.now) draft.old) }
{
    if text.is_empty() {
        return Ok(());
    }
    if draft.is_long() {
        return Err(AllocError);
    }
    add_marked(alloc, text, marks, draft)
}
