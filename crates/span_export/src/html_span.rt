//! A span as HTML.
ghost use Rattle.span_export.specs.Html.{open_link, close_link};
ghost use Rattle.span_export.specs.Html.{open_tags, close_tags, html_span};
ghost use Rattle.span_export.specs.Paragraphs.{span_of};
ghost use Rattle.span_export.specs.Putting.{Puts};

use crate::comment_tags::{put_close_comments, put_open_comments};
use crate::html_text::{put_html_characters, put_html_text};
use crate::putting::{put, put_if};
use crate::web_address::is_tame;
use op_model::{Marks, Span, Url};
use std::alloc::AllocError;

/// Puts a span: `<strong>`, `<em>`, `<a href>` for a link that is tame (no scheme, `http`, `https`
/// or `mailto`; any other is shown as text alone), and for each comment a `<span data-comment>`
/// with its UUID.
pub(crate) fn put_span(span: &Span, out: &mut Vec<u8>) -> Result<(), AllocError>
    ensures { Puts result out.old out.new (html_span span.now) }
{
    put_marked(span.text.as_slice(), &span.marks, out)
}

/// Puts a span of these characters: its text between the tags of its marks.
pub(crate) fn put_marked(text: &[char], marks: &Marks, out: &mut Vec<u8>) -> Result<(), AllocError>
    ensures { Puts result out.old out.new (html_span (span_of text.now marks.now)) }
{
    put_open_tags(marks, out)?;
    put_html_characters(text, out)?;
    put_close_tags(marks, out)
}

/// Puts the tags before a span's text.
fn put_open_tags(marks: &Marks, out: &mut Vec<u8>) -> Result<(), AllocError>
    ensures { Puts result out.old out.new (open_tags marks.now) }
{
    put_open_comments(marks.comments.as_slice(), out)?;
    put_open_link(&marks.link, out)?;
    put_if(marks.strong, b"<strong>", out)?;
    put_if(marks.em, b"<em>", out)
}

/// Puts the tags after a span's text.
fn put_close_tags(marks: &Marks, out: &mut Vec<u8>) -> Result<(), AllocError>
    ensures { Puts result out.old out.new (close_tags marks.now) }
{
    put_if(marks.em, b"</em>", out)?;
    put_if(marks.strong, b"</strong>", out)?;
    put_close_link(&marks.link, out)?;
    put_close_comments(marks.comments.as_slice(), out)
}

/// Puts the tag that begins a link, where it may lead there.
fn put_open_link(link: &Option<Url>, out: &mut Vec<u8>) -> Result<(), AllocError>
    ensures { Puts result out.old out.new (open_link link.now) }
{
    match link {
        Some(url) if is_tame(url.as_str()) => {
            put(b"<a href=\"", out)?;
            put_html_text(url.as_str().as_bytes(), out)?;
            put(b"\">", out)
        }
        _ => Ok(()),
    }
}

/// Puts the tag that ends a link.
fn put_close_link(link: &Option<Url>, out: &mut Vec<u8>) -> Result<(), AllocError>
    ensures { Puts result out.old out.new (close_link link.now) }
{
    match link {
        Some(url) if is_tame(url.as_str()) => put(b"</a>", out),
        _ => Ok(()),
    }
}
