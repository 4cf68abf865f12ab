//! A span as Markdown.
ghost use Rattle.std.specs.Prelude.{◌≡◌, ◌++◌, IfOk, OnOk, flat_map};
ghost use Rattle.span_export.specs.Html.{open_comment, close_comment};
ghost use Rattle.span_export.specs.Markdown.{stars, add_text, add_tags, address_byte};
ghost use Rattle.span_export.specs.Markdown.{open_bracket, close_bracket, add_span};
ghost use Rattle.span_export.specs.Paragraphs.{span_of};
ghost use Rattle.span_export.specs.Putting.{Puts};

use crate::before::Before;
use crate::comment_tags::{put_close_comments, put_open_comments};
use crate::draft::Draft;
use crate::emphasis::add_starred;
use crate::markdown_text::add_characters;
use crate::putting::put;
use crate::web_address::is_tame;
use op_model::{Marks, Span, Url};
use std::alloc::{AllocError, Global};

/// Writes a span: stars for strong text and emphasis, `[text](<address>)` for a link that is tame
/// (no scheme, `http`, `https` or `mailto`; any other is shown as text alone), and for each comment
/// a tag `<span data-comment>` with its UUID. White space at the ends of a span stands outside of
/// its stars, and an empty tag keeps apart stars that would run together.
pub(crate) fn add_span(alloc: Global, span: &Span, draft: &mut Draft) -> Result<(), AllocError>
    ensures { OnOk result (draft.new ≡ add_span span.now draft.old) }
{
    add_marked(alloc, span.text.as_slice(), &span.marks, draft)
}

/// Writes a span of these characters: its text within its comments and its link.
pub(crate) fn add_marked(
    alloc: Global,
    text: &[char],
    marks: &Marks,
    draft: &mut Draft,
) -> Result<(), AllocError>
    ensures { OnOk result (draft.new ≡ add_span (span_of text.now marks.now) draft.old) }
{
    let opening = opening(alloc, marks)?;
    let closing = closing(alloc, marks)?;
    add_tags(&opening, draft)?;
    add_text(text, marks, draft)?;
    add_tags(&closing, draft)
}

/// What stands before a span's text.
fn opening(alloc: Global, marks: &Marks) -> Result<Vec<u8>, AllocError>
    ensures { IfOk result (λ tags.
        tags.items ≡ flat_map open_comment marks.now.comments ++ open_bracket marks.now.link) }
{
    let mut out = Vec::new(alloc);
    put_open_comments(marks.comments.as_slice(), &mut out)?;
    put_open_bracket(&marks.link, &mut out)?;
    Ok(out)
}

/// What stands after a span's text.
fn closing(alloc: Global, marks: &Marks) -> Result<Vec<u8>, AllocError>
    ensures { IfOk result (λ tags.
        tags.items ≡ close_bracket marks.now.link ++ flat_map close_comment marks.now.comments) }
{
    let mut out = Vec::new(alloc);
    put_close_bracket(&marks.link, &mut out)?;
    put_close_comments(marks.comments.as_slice(), &mut out)?;
    Ok(out)
}

/// Writes tags and brackets, where there are some.
fn add_tags(bytes: &[u8], draft: &mut Draft) -> Result<(), AllocError>
    ensures { OnOk result (draft.new ≡ add_tags bytes.now draft.old) }
{
    if bytes.is_empty() {
        return Ok(());
    }
    draft.write(bytes, Before::Tag)
}

/// The stars around text that is strong, emphasised, or both.
fn stars(strong: bool, em: bool) -> &'static [u8]
    ensures { result.now ≡ stars strong em }
{
    match (strong, em) {
        (true, true) => b"***",
        (true, false) => b"**",
        (false, true) => b"*",
        (false, false) => b"",
    }
}

/// Writes a span's text, between stars where it is strong or emphasised.
fn add_text(text: &[char], marks: &Marks, draft: &mut Draft) -> Result<(), AllocError>
    ensures { OnOk result (draft.new ≡ add_text (span_of text.now marks.now) draft.old) }
{
    let Marks { strong, em, .. } = *marks;
    if strong || em {
        add_starred(stars(strong, em), text, draft)
    } else {
        add_characters(text, draft)
    }
}

/// Puts the bracket before a link's text, where the link may lead there.
fn put_open_bracket(link: &Option<Url>, out: &mut Vec<u8>) -> Result<(), AllocError>
    ensures { Puts result out.old out.new (open_bracket link.now) }
{
    match link {
        Some(url) if is_tame(url.as_str()) => put(b"[", out),
        _ => Ok(()),
    }
}

/// Puts the bracket after a link's text, and where the link leads.
fn put_close_bracket(link: &Option<Url>, out: &mut Vec<u8>) -> Result<(), AllocError>
    ensures { Puts result out.old out.new (close_bracket link.now) }
{
    match link {
        Some(url) if is_tame(url.as_str()) => {
            put(b"](<", out)?;
            put_address(url.as_str().as_bytes(), out)?;
            put(b">)", out)
        }
        _ => Ok(()),
    }
}

/// Puts a byte of an address as it stands between `<` and `>`.
fn put_address_byte(byte: u8, out: &mut Vec<u8>) -> Result<(), AllocError>
    ensures { Puts result out.old out.new (address_byte byte) }
{
    match byte {
        0 => put(b"&#0;", out),
        b'\n' => put(b"&#10;", out),
        b'\r' => put(b"&#13;", out),
        b'\\' | b'<' | b'>' | b'&' => put(&[b'\\', byte], out),
        _ => put(&[byte], out),
    }
}

/// Puts an address as it stands between `<` and `>`.
fn put_address(bytes: &[u8], out: &mut Vec<u8>) -> Result<(), AllocError>
    ensures { Puts result out.old out.new (flat_map address_byte bytes.now) }
{
    for byte in bytes {
        put_address_byte(*byte, out)?;
    }
    Ok(())
}
