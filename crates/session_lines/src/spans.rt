//! Spans and what they are made of, as JSON.
ghost use Rattle.std.specs.Prelude.{◌++◌, false, codes};
ghost use Rattle.session_lines.specs.Words.{said_list};
ghost use Rattle.session_lines.specs.Putting.{Puts};
ghost use Rattle.session_lines.specs.Saying.{said_characters, said_id, said_comments};
ghost use Rattle.session_lines.specs.Saying.{said_if, said_link, said_marks, said_span};

use crate::quoted::{comma, put, put_characters, put_quoted};
use op_model::{CommentId, Marks, Span, Url};
use std::alloc::AllocError;
use uuid::Uuid;

/// Puts the name of a comment as a JSON string.
fn put_id(id: CommentId, out: &mut Vec<u8>) -> Result<(), AllocError>
    ensures { Puts result out.old out.new (said_id id) }
{
    let mut buffer = Uuid::encode_buffer();
    let name = Uuid::from_bytes(id.bytes())
        .hyphenated()
        .encode_lower(&mut buffer);
    put_quoted(name, out)
}

/// Puts the names of comments, and the closing bracket.
pub(crate) fn put_ids(ids: &[CommentId], out: &mut Vec<u8>) -> Result<(), AllocError>
    ensures { Puts result out.old out.new (said_list said_id false ids.now) }
{
    let mut later = false;
    for id in ids {
        put(comma(later), out)?;
        put_id(*id, out)?;
        later = true;
    }
    put(b"]", out)
}

/// Puts the member of the comments if there are some.
fn put_comments(ids: &[CommentId], out: &mut Vec<u8>) -> Result<(), AllocError>
    ensures { Puts result out.old out.new (said_comments ids.now) }
{
    if ids.is_empty() {
        return Ok(());
    }
    put(b"\"comments\":[", out)?;
    put_ids(ids, out)?;
    put(b",", out)
}

/// Puts the member of the link if there is one.
fn put_link(link: &Option<Url>, out: &mut Vec<u8>) -> Result<(), AllocError>
    ensures { Puts result out.old out.new (said_link link.now) }
{
    match link {
        Some(url) => {
            put(b"\"link\":", out)?;
            put_quoted(url.as_str(), out)?;
            put(b",", out)
        }
        None => Ok(()),
    }
}

/// Puts the member of a mark if there is one.
fn put_mark(there: bool, member: &[u8], out: &mut Vec<u8>) -> Result<(), AllocError>
    ensures { Puts result out.old out.new (said_if there member.now) }
{
    if there { put(member, out) } else { Ok(()) }
}

/// Puts the members of the marks that there are.
pub(crate) fn put_marks(marks: &Marks, out: &mut Vec<u8>) -> Result<(), AllocError>
    ensures { Puts result out.old out.new (said_marks marks.now) }
{
    put_comments(marks.comments.as_slice(), out)?;
    put_mark(marks.em, b"\"em\":true,", out)?;
    put_link(&marks.link, out)?;
    put_mark(marks.strong, b"\"strong\":true,", out)
}

/// Puts the name of a text, the text, and the bracket that closes what it stands in.
pub(crate) fn put_text(name: &[u8], text: &[char], out: &mut Vec<u8>) -> Result<(), AllocError>
    ensures { Puts result out.old out.new (name.now ++ (said_characters text.now ++ codes "}")) }
{
    put(name, out)?;
    put_characters(text, out)?;
    put(b"}", out)
}

/// Puts a span: its marks, and then its text.
fn put_span(span: &Span, out: &mut Vec<u8>) -> Result<(), AllocError>
    ensures { Puts result out.old out.new (said_span span.now) }
{
    put(b"{", out)?;
    put_marks(&span.marks, out)?;
    put_text(b"\"text\":", span.text.as_slice(), out)
}

/// Puts spans, and the closing bracket.
pub(crate) fn put_spans(spans: &[Span], out: &mut Vec<u8>) -> Result<(), AllocError>
    ensures { Puts result out.old out.new (said_list said_span false spans.now) }
{
    let mut later = false;
    for span in spans {
        put(comma(later), out)?;
        put_span(span, out)?;
        later = true;
    }
    put(b"]", out)
}
