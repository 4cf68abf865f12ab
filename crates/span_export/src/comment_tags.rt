//! The tags around a text that has comments.
ghost use Rattle.std.specs.Prelude.{flat_map};
ghost use Rattle.span_export.specs.HtmlText.{html_text};
ghost use Rattle.span_export.specs.Html.{comment_name, open_comment, close_comment};
ghost use Rattle.span_export.specs.Putting.{Puts};

use crate::html_text::put_html_text;
use crate::putting::put;
use op_model::CommentId;
use std::alloc::AllocError;
use uuid::Uuid;

/// Puts the name of a comment, as it stands in HTML.
fn put_comment_name(id: CommentId, out: &mut Vec<u8>) -> Result<(), AllocError>
    ensures { Puts result out.old out.new (html_text (comment_name id)) }
{
    let mut buffer = Uuid::encode_buffer();
    let name = Uuid::from_bytes(id.bytes())
        .hyphenated()
        .encode_lower(&mut buffer);
    put_html_text(name.as_bytes(), out)
}

/// Puts the tag that begins a comment.
fn put_open_comment(id: CommentId, out: &mut Vec<u8>) -> Result<(), AllocError>
    ensures { Puts result out.old out.new (open_comment id) }
{
    put(b"<span data-comment=\"", out)?;
    put_comment_name(id, out)?;
    put(b"\">", out)
}

/// Puts the tags that begin comments.
pub(crate) fn put_open_comments(ids: &[CommentId], out: &mut Vec<u8>) -> Result<(), AllocError>
    ensures { Puts result out.old out.new (flat_map open_comment ids.now) }
{
    for id in ids {
        put_open_comment(*id, out)?;
    }
    Ok(())
}

/// Puts the tags that end comments.
pub(crate) fn put_close_comments(ids: &[CommentId], out: &mut Vec<u8>) -> Result<(), AllocError>
    ensures { Puts result out.old out.new (flat_map close_comment ids.now) }
{
    for _id in ids {
        put(b"</span>", out)?;
    }
    Ok(())
}
