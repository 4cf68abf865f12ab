//! The record of what is typed next.
ghost use Rattle.std.specs.Prelude.{◌≡◌, ◌≤◌, length, take, IfOk, IfSome, IsTrue};
ghost use Rattle.std.specs.Char.{IsScalar};
ghost use Rattle.change_codec.specs.Formats.{IsOf};
ghost use Rattle.op_pieces.specs.Pieces.{has_room_behind};
ghost use Rattle.run_list.specs.Told.{bare_of as bare_of_op};
ghost use Rattle.run_list.specs.Writer.{IsSpelledNext};

use crate::token_numbers::bare_of;
use crate::typed::typed_at;
use change_codec::{Format, every_op_has_a_spelling, put_op, take_scalar, take_token, take_u32};
use fixed_numbers::limits::MAX_COUNTER;
use op_ids::Token;
use op_model::{Body, Op, insert_length};
use std::alloc::AllocError;

/// The operation that is typed right behind another one, if the format has it and the bytes begin
/// with its record. `None` says nothing of the bytes. An error is out of memory (1). It is made in
/// the memory of the other one, and spelled in that of `spelling`: so both are taken once for all
/// that is typed. One pass over the record.
pub(crate) fn next_spelled(
    last: Op,
    format: Format,
    bytes: &[u8],
    spelling: &mut Vec<u8>,
) -> Result<Option<Op>, AllocError>
    ensures { IfOk result (λ found. IfSome found (IsSpelledNext last format bytes.now)) }
{
    every_op_has_a_spelling(&last);
    if !has_room(&last) || !has_format(format, &last) {
        return Ok(None);
    }
    let Some(value) = last_character(bytes, last.record_length() as usize) else {
        return Ok(None);
    };
    let next = typed_at(last, 1, value)?;
    spelling.clear();
    put_op(&next, spelling)?;
    if begins_with(bytes, spelling) {
        Ok(Some(next))
    } else {
        Ok(None)
    }
}

/// The operation with the token in place of its own that stands in the bytes, if these begin with
/// the record of what is typed right behind it: else with any. Constant.
pub(crate) fn with_told_token(last: Op, bytes: &[u8]) -> Op
    ensures { bare_of_op result ≡ bare_of_op last }
{
    let mut last = bare_of(last);
    last.token = told_token(bytes, last.record_length() as usize);
    last
}

/// The token before the content of an insert behind a character whose record would take so many
/// bytes without it, if the bytes begin with a longer one.
fn told_token(bytes: &[u8], len: usize) -> Option<Token> {
    let Ok((body, _)) = take_u32(bytes) else {
        return None;
    };
    if body as usize + 4 <= len {
        return None;
    }
    let at = len.checked_sub(insert_length(true) as usize)?;
    match take_token(true, bytes.get(at..)?) {
        Ok((token, _)) => token,
        Err(_) => None,
    }
}

/// Whether one more character can be typed behind an operation: it is an insert, and the counter
/// and the clock have room. At most 16 steps.
fn has_room(op: &Op) -> bool
    ensures { result ≡ has_room_behind op.now 1 }
{
    let is_insert = matches!(op.body, Body::Insert { .. });
    is_insert && op.id.counter() < MAX_COUNTER && op.deps.can_advance_by(op.id.replica(), 1)
}

/// Whether a format has operations with the token of this one, or without, as it is.
fn has_format(format: Format, op: &Op) -> bool
    ensures { IsTrue result → IsOf format op.now }
{
    format.has_tokens() || op.token.is_none()
}

/// The character with which a record of so many bytes ends, if these are there and it does.
fn last_character(bytes: &[u8], len: usize) -> Option<char>
    ensures { IfSome result IsScalar }
{
    let at = len.checked_sub(4)?;
    match take_scalar(bytes.get(at..)?) {
        Ok((value, _)) => Some(value),
        Err(_) => None,
    }
}

/// Whether the bytes begin with these.
fn begins_with(bytes: &[u8], front: &[u8]) -> bool
    ensures within { IsTrue result → length front.now ≤ length bytes.now }
    ensures same { IsTrue result → take (length front.now) bytes.now ≡ front.now }
{
    front.len() <= bytes.len() && are_same(bytes.split_at(front.len()).0, front)
}

/// Whether so many bytes are these. The pass doesn't end at the first that isn't, so the compiler
/// makes it in steps of many bytes.
fn are_same(bytes: &[u8], front: &[u8]) -> bool
    requires { length bytes.now ≡ length front.now }
    ensures { IsTrue result → bytes.now ≡ front.now }
{
    let mut same = true;
    for i in 0..front.len() {
        same = same & (bytes[i] == front[i]);
    }
    same
}
