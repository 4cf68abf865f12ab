//! Marks and their keys.
ghost use Rattle.std.specs.Prelude.{◌≡◌, IfOk, IsOk};
ghost use Rattle.std.specs.Int.{w128};
ghost use Rattle.change_codec.specs.Spelling.{number_bytes, mark_bytes, key_bytes, url_bytes};
ghost use Rattle.change_codec.specs.Lent.{mark_of, HasUrlOf, IsNoLink};
ghost use Rattle.change_codec.specs.Reading.{Reads, mark_at, key_at, url_at};
ghost use Rattle.change_codec.specs.Writing.{Appends, HasRoom};

use crate::CodecError;
use crate::number::{put_byte, put_bytes, put_u16, take_bytes, take_sixteen, take_u16};
use fixed_numbers::limits::MAX_URL_LENGTH;
use op_model::{CommentId, Mark, MarkKey, Url};
use std::alloc::{AllocError, Global};
use std::str::from_utf8;

/// A mark whose URL lies in the bytes that it was read from.
#[derive(Clone, Copy, Debug)]
pub enum LentMark<'a> {
    Strong,
    Em,
    Link(&'a str),
    Comment(CommentId),
}

impl LentMark<'_> {
    /// The mark with a URL of its own. An error is out of memory.
    pub(crate) fn to_mark(self, alloc: Global) -> Result<Mark, AllocError>
        requires { HasUrlOf (mark_of self) }
        ensures same { IfOk result (λ mark. mark ≡ mark_of self.entry) }
        ensures small { IsNoLink (mark_of self.entry) → IsOk result }
    {
        match self {
            LentMark::Strong => Ok(Mark::Strong),
            LentMark::Em => Ok(Mark::Em),
            LentMark::Link(text) => {
                let text = String::from_str(alloc, text)?;
                Ok(Mark::Link(Url::new(text).unwrap()))
            }
            LentMark::Comment(id) => Ok(Mark::Comment(id)),
        }
    }
}

/// Puts a mark as it is added: its kind, and the URL of a link or the name of a comment.
#[tactic(auto, unfolding(crate::specs::Spelling::mark_bytes))]
pub(crate) fn put_mark(mark: &Mark, out: &mut Vec<u8>)
    requires { HasRoom out.old (mark_bytes mark.now) }
    ensures { Appends out.old out.new (mark_bytes mark.now) }
{
    match mark {
        Mark::Strong => put_byte(1, out),
        Mark::Em => put_byte(2, out),
        Mark::Link(url) => {
            put_byte(3, out);
            put_url(url, out);
        }
        Mark::Comment(id) => {
            put_byte(4, out);
            put_comment(*id, out);
        }
    }
}

/// Puts a mark as it is removed: its kind, and the name of a comment.
#[tactic(auto, unfolding(crate::specs::Spelling::key_bytes))]
pub(crate) fn put_key(key: MarkKey, out: &mut Vec<u8>)
    requires { HasRoom out.old (key_bytes key) }
    ensures { Appends out.old out.new (key_bytes key) }
{
    match key {
        MarkKey::Strong => put_byte(1, out),
        MarkKey::Em => put_byte(2, out),
        MarkKey::Link => put_byte(3, out),
        MarkKey::Comment(id) => {
            put_byte(4, out);
            put_comment(id, out);
        }
    }
}

#[tactic(auto, unfolding(crate::specs::Spelling::url_bytes))]
fn put_url(url: &Url, out: &mut Vec<u8>)
    requires { HasRoom out.old (url_bytes url.now) }
    ensures { Appends out.old out.new (url_bytes url.now) }
{
    let text = url.as_str();
    put_u16(text.len() as u16, out);
    put_bytes(text.as_bytes(), out);
}

#[tactic(auto, unfolding(crate::specs::Spelling::number_bytes))]
fn put_comment(id: CommentId, out: &mut Vec<u8>)
    requires { HasRoom out.old (number_bytes w128 id) }
    ensures { Appends out.old out.new (number_bytes w128 id) }
{
    put_bytes(&id.bytes(), out);
}

/// Takes a mark as it is added from the front. `Kind` (31) for no kind of mark; for a link `Number`
/// (32) where the URL isn't of 1 to 1,024 bytes, and `Utf8` (34) where they aren't UTF-8.
#[tactic(auto, unfolding(crate::specs::Reading::mark_at))]
pub(crate) fn take_mark(bytes: &[u8]) -> Result<(LentMark<'_>, &[u8]), CodecError>
    ensures { Reads (λ x. (mark_of x.0, x.1.now)) result (mark_at bytes.now) }
{
    match bytes {
        [] => Err(CodecError::Length),
        [1, rest @ ..] => Ok((LentMark::Strong, rest)),
        [2, rest @ ..] => Ok((LentMark::Em, rest)),
        [3, rest @ ..] => {
            let (url, rest) = take_url(rest)?;
            Ok((LentMark::Link(url), rest))
        }
        [4, rest @ ..] => {
            let (id, rest) = take_sixteen(rest)?;
            Ok((LentMark::Comment(CommentId::read(id)), rest))
        }
        [_, ..] => Err(CodecError::Kind),
    }
}

/// Takes a mark as it is removed from the front. `Kind` (31) for no kind of mark.
#[tactic(auto, unfolding(crate::specs::Reading::key_at))]
pub(crate) fn take_key(bytes: &[u8]) -> Result<(MarkKey, &[u8]), CodecError>
    ensures { Reads (λ x. (x.0, x.1.now)) result (key_at bytes.now) }
{
    match bytes {
        [] => Err(CodecError::Length),
        [1, rest @ ..] => Ok((MarkKey::Strong, rest)),
        [2, rest @ ..] => Ok((MarkKey::Em, rest)),
        [3, rest @ ..] => Ok((MarkKey::Link, rest)),
        [4, rest @ ..] => {
            let (id, rest) = take_sixteen(rest)?;
            Ok((MarkKey::Comment(CommentId::read(id)), rest))
        }
        [_, ..] => Err(CodecError::Kind),
    }
}

#[tactic(auto, unfolding(crate::specs::Reading::url_at))]
fn take_url(bytes: &[u8]) -> Result<(&str, &[u8]), CodecError>
    ensures { Reads (λ x. (x.0.now, x.1.now)) result (url_at bytes.now) }
{
    let (len, rest) = take_u16(bytes)?;
    if len == 0 || len as usize > MAX_URL_LENGTH {
        return Err(CodecError::Number);
    }
    let (text, rest) = take_bytes(len as usize, rest)?;
    match from_utf8(text) {
        Ok(text) => Ok((text, rest)),
        Err(_) => Err(CodecError::Utf8),
    }
}
