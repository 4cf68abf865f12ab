//! What changed in a text, as JSON.
ghost use Rattle.std.specs.Prelude.{◌≡◌, ◌↔◌, ◌++◌, [], false, IsTrue, codes, decimal};
ghost use Rattle.session_lines.specs.Words.{said_list};
ghost use Rattle.session_lines.specs.Putting.{Puts};
ghost use Rattle.std.specs.Option.{option_copied};
ghost use Rattle.session_lines.specs.Saying.{but_last_kept, is_kept, said_attributes, said_comments_now};
ghost use Rattle.session_lines.specs.Saying.{said_link_now, said_marks, said_marks_now, said_now};
ghost use Rattle.session_lines.specs.Saying.{said_put, said_step};

use crate::numbered::put_numbered;
use crate::quoted::{comma, put, put_quoted};
use crate::spans::{put_ids, put_marks, put_text};
use op_model::{ChangeStep, CommentId, Marks, Span, Url};
use std::alloc::AllocError;

/// Whether there are no marks.
fn is_plain(marks: &Marks) -> bool
    ensures { IsTrue result ↔ (said_marks marks.now ≡ []) }
{
    !marks.strong && !marks.em && marks.link.is_none() && marks.comments.as_slice().is_empty()
}

/// Puts the marks that there are as attributes, if there are any.
fn put_attributes(marks: &Marks, out: &mut Vec<u8>) -> Result<(), AllocError>
    ensures { Puts result out.old out.new (said_attributes (said_marks marks.now)) }
{
    if is_plain(marks) {
        return put(b"{", out);
    }
    put(b"{\"attributes\":{", out)?;
    put_marks(marks, out)?;
    out.truncate(out.len() - 1);
    put(b"},", out)
}

/// Puts characters that come.
fn put_put(span: &Span, out: &mut Vec<u8>) -> Result<(), AllocError>
    ensures { Puts result out.old out.new (said_put span.now) }
{
    put_attributes(&span.marks, out)?;
    put_text(b"\"insert\":", span.text.as_slice(), out)
}

/// Puts the comments that characters have now, or that they have none.
fn put_comments_now(ids: &[CommentId], out: &mut Vec<u8>) -> Result<(), AllocError>
    ensures { Puts result out.old out.new (said_comments_now ids.now) }
{
    if ids.is_empty() {
        return put(b"{\"comments\":null", out);
    }
    put(b"{\"comments\":[", out)?;
    put_ids(ids, out)
}

/// Puts whether characters have a mark now.
fn put_now(there: bool, out: &mut Vec<u8>) -> Result<(), AllocError>
    ensures { Puts result out.old out.new (said_now there) }
{
    if there {
        put(b"true", out)
    } else {
        put(b"null", out)
    }
}

/// Puts the name of a mark, and whether characters have it now.
fn put_flag(name: &[u8], there: bool, out: &mut Vec<u8>) -> Result<(), AllocError>
    ensures { Puts result out.old out.new (name.now ++ said_now there) }
{
    put(name, out)?;
    put_now(there, out)
}

/// Puts the link that characters have now, or that they have none.
fn put_link_now(link: &Option<Url>, out: &mut Vec<u8>) -> Result<(), AllocError>
    ensures { Puts result out.old out.new (said_link_now link.now) }
{
    match link {
        Some(url) => put_quoted(url.as_str(), out),
        None => put(b"null", out),
    }
}

/// Puts all that characters have and don't have now.
fn put_marks_now(marks: &Marks, out: &mut Vec<u8>) -> Result<(), AllocError>
    ensures { Puts result out.old out.new (said_marks_now marks.now) }
{
    put_comments_now(marks.comments.as_slice(), out)?;
    put_flag(b",\"em\":", marks.em, out)?;
    put(b",\"link\":", out)?;
    put_link_now(&marks.link, out)?;
    put_flag(b",\"strong\":", marks.strong, out)?;
    put(b"}", out)
}

/// Puts a step that stays or goes: its name, and how many characters it counts.
fn put_count(name: &[u8], count: usize, out: &mut Vec<u8>) -> Result<(), AllocError>
    ensures { Puts result out.old out.new (name.now ++ (decimal count ++ codes "}")) }
{
    put_numbered(name, count as u64, b"}", out)
}

/// Puts characters that stay with other marks.
fn put_mark(count: usize, marks: &Marks, out: &mut Vec<u8>) -> Result<(), AllocError>
    ensures { Puts result out.old out.new (said_step (ChangeStep.Mark count marks.now)) }
{
    put(b"{\"attributes\":", out)?;
    put_marks_now(marks, out)?;
    put_count(b",\"retain\":", count, out)
}

/// Puts a step over a text.
fn put_step(step: &ChangeStep, out: &mut Vec<u8>) -> Result<(), AllocError>
    ensures { Puts result out.old out.new (said_step step.now) }
{
    match step {
        ChangeStep::Keep(count) => put_count(b"{\"retain\":", *count, out),
        ChangeStep::Drop(count) => put_count(b"{\"delete\":", *count, out),
        ChangeStep::Put(span) => put_put(span, out),
        ChangeStep::Mark(count, marks) => put_mark(*count, marks, out),
    }
}

/// Whether a step keeps characters as they are.
fn is_kept(step: Option<&ChangeStep>) -> bool
    ensures { result ≡ is_kept (option_copied step.entry) }
{
    matches!(step, Some(ChangeStep::Keep(_)))
}

/// These steps without a last one that keeps characters as they are.
fn but_last_kept(steps: &[ChangeStep]) -> &[ChangeStep]
    ensures { result.now ≡ but_last_kept steps.now }
{
    if is_kept(steps.last()) {
        return &steps[..steps.len() - 1];
    }
    steps
}

/// Puts steps without a last one that keeps characters as they are, and the closing bracket.
pub(crate) fn put_changes(steps: &[ChangeStep], out: &mut Vec<u8>) -> Result<(), AllocError>
    ensures { Puts result out.old out.new (said_list said_step false (but_last_kept steps.now)) }
{
    put_steps(but_last_kept(steps), out)
}

/// Puts steps, and the closing bracket.
fn put_steps(steps: &[ChangeStep], out: &mut Vec<u8>) -> Result<(), AllocError>
    ensures { Puts result out.old out.new (said_list said_step false steps.now) }
{
    let mut later = false;
    for step in steps {
        put(comma(later), out)?;
        put_step(step, out)?;
        later = true;
    }
    put(b"]", out)
}
