//! A document's spans as a page of HTML with paragraphs.
ghost use Rattle.std.specs.Prelude.{◌≡◌, ◌++◌, [], IfOk, codes, flat_map};
ghost use Rattle.span_export.specs.Html.{html_span};
ghost use Rattle.span_export.specs.HtmlParagraphs.{html_part, html_paragraphs};
ghost use Rattle.span_export.specs.Paragraphs.{part, parted_from, parted};
ghost use Rattle.span_export.specs.Putting.{Puts};
ghost use Rattle.span_export.specs.Reading.{text, read_html, text_of};

use crate::html_page::{put_foot, put_head};
use crate::html_span::put_marked;
use crate::putting::{MOST_BYTES, put};
use crate::text_part::between;
use op_model::{Marks, Span};
use std::alloc::{AllocError, Global};

/// A page of HTML that shows spans in paragraphs, one more than there are line feeds: an empty one
/// is `<p>` with a line feed in it, as a line feed ends each but the last. A span is shown as
/// `put_span` says, in each paragraph by itself. An error is out of memory (1), or a page of over
/// 268,435,456 bytes. The time is that of the page's length, which has the tags of a span once for
/// each of its lines.
pub(crate) fn html_paragraphs(alloc: Global, spans: &[Span]) -> Result<Vec<u8>, AllocError>
    ensures page { IfOk result (λ page. page.items ≡ html_paragraphs spans.now) }
    ensures shows { IfOk result (λ page.
        read_html text page.items ≡ text_of spans.now ++ codes "\n") }
{
    let mut out = Vec::new(alloc);
    put_page(spans, &mut out)?;
    Ok(out)
}

/// Puts a page that shows spans in paragraphs.
fn put_page(spans: &[Span], out: &mut Vec<u8>) -> Result<(), AllocError>
    ensures { Puts result out.old out.new (html_paragraphs spans.now) }
{
    put_head(out)?;
    put(b"<p>", out)?;
    put_parted(spans, out)?;
    put(b"</p>", out)?;
    put_foot(out)
}

/// Puts spans, and a break between two paragraphs for each line feed.
fn put_parted(spans: &[Span], out: &mut Vec<u8>) -> Result<(), AllocError>
    ensures { Puts result out.old out.new (flat_map html_part (parted spans.now)) }
{
    for span in spans {
        put_parted_span(span.text.as_slice(), &span.marks, out)?;
    }
    Ok(())
}

/// Puts a span of these characters, and a break between two paragraphs for each line feed.
fn put_parted_span(text: &[char], marks: &Marks, out: &mut Vec<u8>) -> Result<(), AllocError>
    ensures { Puts result out.old out.new
        (flat_map html_part (parted_from [] text.now marks.now)) }
{
    let mut start = 0;
    for (i, character) in text.iter().enumerate() {
        if *character == '\n' {
            put_part(between(text, start, i), marks, out)?;
            put(b"\n</p><p>", out)?;
            start = i + 1;
        }
    }
    put_part(between(text, start, text.len()), marks, out)
}

/// Puts characters of a paragraph, if there are some, and the page isn't too long already.
fn put_part(text: &[char], marks: &Marks, out: &mut Vec<u8>) -> Result<(), AllocError>
    ensures { Puts result out.old out.new (flat_map html_span (part text.now marks.now)) }
{
    if text.is_empty() {
        return Ok(());
    }
    if out.len() > MOST_BYTES {
        return Err(AllocError);
    }
    put_marked(text, marks, out)
}
