//! What an operation does, by the kind of its record.
ghost use Rattle.std.specs.Prelude.{◌≡◌, ◌≤◌, Option, IfOk, IsOk, is_some};
ghost use Rattle.change_codec.specs.Spelling.{content_bytes, origin_bytes, kind_byte, tagged};
ghost use Rattle.change_codec.specs.Lent.{AddsNoLink, body_of, HasUrl};
ghost use Rattle.change_codec.specs.Reading.{Reads, kind_at, kind_named, body_at, content_at, origin_at, scalar_at};
ghost use Rattle.change_codec.specs.declared.content.Kind.TheVariants.{Insert, Remove, AddMark, RemoveMark};
ghost use Rattle.change_codec.specs.Writing.{Appends, HasRoom};

use crate::anchor::{put_end, put_start, take_span};
use crate::id::{put_id, take_id};
use crate::mark::{LentMark, put_key, put_mark, take_key, take_mark};
use crate::number::{put_byte, put_u32, take_u32};
use crate::{CodecError, Format};
use op_ids::OpId;
use op_model::{Body, End, Op, Start};
use std::alloc::{AllocError, Global};

/// The kind of a record.
#[derive(Clone, Copy, Debug, PartialEq, Eq)]
pub enum Kind {
    Insert,
    Remove,
    AddMark,
    RemoveMark,
}

/// What an operation does, read without memory: the URL of a link lies in the bytes that it was
/// read from.
#[derive(Debug, Drop)]
pub enum LentBody<'a> {
    Whole(Body),
    AddMark {
        mark: LentMark<'a>,
        start: Start,
        end: End,
    },
}

/// The first byte of a record: 1 insert, 2 remove, 3 add mark, 4 remove mark, and 16 more where the
/// operation has a token.
pub(crate) fn record_byte(op: &Op) -> u8
    ensures { result ≡ tagged (is_some op.now.token) (kind_byte op.now.body) }
{
    let kind = body_byte(&op.body);
    if op.token.is_some() { 16 + kind } else { kind }
}

fn body_byte(body: &Body) -> u8
    ensures value { result ≡ kind_byte body.now }
    ensures few { result ≤ 4 }
{
    match body {
        Body::Insert { .. } => 1,
        Body::Remove { .. } => 2,
        Body::AddMark { .. } => 3,
        Body::RemoveMark { .. } => 4,
    }
}

/// Puts what an operation does.
#[tactic(auto, unfolding(crate::specs::Spelling::content_bytes))]
pub(crate) fn put_content(body: &Body, out: &mut Vec<u8>)
    requires { HasRoom out.old (content_bytes body.now) }
    ensures { Appends out.old out.new (content_bytes body.now) }
{
    match body {
        Body::Insert { origin, value } => {
            put_origin(*origin, out);
            put_u32(*value as u32, out);
        }
        Body::Remove { target } => put_id(*target, out),
        Body::AddMark { mark, start, end } => {
            put_mark(mark, out);
            put_start(*start, out);
            put_end(*end, out);
        }
        Body::RemoveMark { key, start, end } => {
            put_key(*key, out);
            put_start(*start, out);
            put_end(*end, out);
        }
    }
}

/// Puts an origin: 0 for none, or 1 and its id.
#[tactic(auto, unfolding(crate::specs::Spelling::origin_bytes))]
pub fn put_origin(origin: Option<OpId>, out: &mut Vec<u8>)
    requires { HasRoom out.old (origin_bytes origin) }
    ensures { Appends out.old out.new (origin_bytes origin) }
{
    match origin {
        None => put_byte(0, out),
        Some(id) => {
            put_byte(1, out);
            put_id(id, out);
        }
    }
}

/// Takes the kind of a record from the front, and whether it has a token. `Kind` (31) for no kind
/// of the format.
#[tactic(auto, unfolding(crate::specs::Reading::kind_at))]
pub(crate) fn take_kind(format: Format, bytes: &[u8]) -> Result<((Kind, bool), &[u8]), CodecError>
    ensures { Reads (λ x. (x.0, x.1.now)) result (kind_at format bytes.now) }
{
    match bytes {
        [] => Err(CodecError::Length),
        [tag, rest @ ..] => {
            if *tag > 16 && format.has_tokens() {
                let kind = named(*tag - 16)?;
                return Ok(((kind, true), rest));
            }
            let kind = named(*tag)?;
            Ok(((kind, false), rest))
        }
    }
}

#[tactic(auto, unfolding(crate::specs::Reading::kind_named))]
fn named(byte: u8) -> Result<Kind, CodecError>
    ensures { Reads (λ k. k) result (kind_named byte) }
{
    match byte {
        1 => Ok(Kind::Insert),
        2 => Ok(Kind::Remove),
        3 => Ok(Kind::AddMark),
        4 => Ok(Kind::RemoveMark),
        _ => Err(CodecError::Kind),
    }
}

impl LentBody<'_> {
    /// The content with a URL of its own. An error is out of memory.
    pub(crate) fn to_body(self, alloc: Global) -> Result<Body, AllocError>
        requires { HasUrl (body_of self) }
        ensures same { IfOk result (λ body. body ≡ body_of self.entry) }
        ensures small { AddsNoLink (body_of self.entry) → IsOk result }
    {
        match self {
            LentBody::Whole(body) => Ok(body),
            LentBody::AddMark { mark, start, end } => Ok(Body::AddMark {
                mark: mark.to_mark(alloc)?,
                start,
                end,
            }),
        }
    }
}

/// Takes all that an operation of this kind does. `Length` (30) where bytes are left behind it.
#[tactic(auto, unfolding(crate::specs::Reading::body_at))]
pub(crate) fn take_whole_content(kind: Kind, bytes: &[u8]) -> Result<LentBody<'_>, CodecError>
    ensures { Reads body_of result (body_at kind bytes.now) }
{
    match take_content(kind, bytes) {
        Ok((body, [])) => Ok(body),
        Ok((_, _)) => Err(CodecError::Length),
        Err(fault) => Err(fault),
    }
}

/// Takes what an operation of this kind does from the front.
fn take_content(kind: Kind, bytes: &[u8]) -> Result<(LentBody<'_>, &[u8]), CodecError>
    ensures { Reads (λ x. (body_of x.0, x.1.now)) result (content_at kind bytes.now) }
{
    match kind {
        Kind::Insert => take_insert(bytes),
        Kind::Remove => take_remove(bytes),
        Kind::AddMark => take_add_mark(bytes),
        Kind::RemoveMark => take_remove_mark(bytes),
    }
}

#[tactic(auto, unfolding(crate::specs::Reading::content_at))]
fn take_insert(bytes: &[u8]) -> Result<(LentBody<'_>, &[u8]), CodecError>
    ensures { Reads (λ x. (body_of x.0, x.1.now)) result (content_at Insert bytes.now) }
{
    match take_origin(bytes) {
        Ok((origin, rest)) => {
            let (value, rest) = take_scalar(rest)?;
            Ok((LentBody::Whole(Body::Insert { origin, value }), rest))
        }
        Err(fault) => Err(fault),
    }
}

#[tactic(auto, unfolding(crate::specs::Reading::content_at))]
fn take_remove(bytes: &[u8]) -> Result<(LentBody<'_>, &[u8]), CodecError>
    ensures { Reads (λ x. (body_of x.0, x.1.now)) result (content_at Remove bytes.now) }
{
    match take_id(bytes) {
        Ok((target, rest)) => Ok((LentBody::Whole(Body::Remove { target }), rest)),
        Err(fault) => Err(fault),
    }
}

#[tactic(auto, unfolding(crate::specs::Reading::content_at))]
fn take_add_mark(bytes: &[u8]) -> Result<(LentBody<'_>, &[u8]), CodecError>
    ensures { Reads (λ x. (body_of x.0, x.1.now)) result (content_at AddMark bytes.now) }
{
    match take_mark(bytes) {
        Ok((mark, rest)) => match take_span(rest) {
            Ok(((start, end), rest)) => Ok((LentBody::AddMark { mark, start, end }, rest)),
            Err(fault) => Err(fault),
        },
        Err(fault) => Err(fault),
    }
}

#[tactic(auto, unfolding(crate::specs::Reading::content_at))]
fn take_remove_mark(bytes: &[u8]) -> Result<(LentBody<'_>, &[u8]), CodecError>
    ensures { Reads (λ x. (body_of x.0, x.1.now)) result (content_at RemoveMark bytes.now) }
{
    match take_key(bytes) {
        Ok((key, rest)) => match take_span(rest) {
            Ok(((start, end), rest)) => {
                Ok((LentBody::Whole(Body::RemoveMark { key, start, end }), rest))
            }
            Err(fault) => Err(fault),
        },
        Err(fault) => Err(fault),
    }
}

/// Takes an origin from the front. `Kind` (31) for no kind of origin.
#[tactic(auto, unfolding(crate::specs::Reading::origin_at))]
pub fn take_origin(bytes: &[u8]) -> Result<(Option<OpId>, &[u8]), CodecError>
    ensures { Reads (λ x. (x.0, x.1.now)) result (origin_at bytes.now) }
{
    match bytes {
        [] => Err(CodecError::Length),
        [0, rest @ ..] => Ok((None, rest)),
        [1, rest @ ..] => match take_id(rest) {
            Ok((id, rest)) => Ok((Some(id), rest)),
            Err(fault) => Err(fault),
        },
        [_, ..] => Err(CodecError::Kind),
    }
}

/// Takes a character from the front. `Scalar` (33) for no Unicode scalar value.
#[tactic(auto, unfolding(crate::specs::Reading::scalar_at))]
pub fn take_scalar(bytes: &[u8]) -> Result<(char, &[u8]), CodecError>
    ensures { Reads (λ x. (x.0, x.1.now)) result (scalar_at bytes.now) }
{
    let (number, rest) = take_u32(bytes)?;
    match char::from_u32(number) {
        Some(value) => Ok((value, rest)),
        None => Err(CodecError::Scalar),
    }
}
