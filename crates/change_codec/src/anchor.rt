//! Where a mark operation begins and ends.
ghost use Rattle.change_codec.specs.Spelling.{anchor_bytes, start_bytes, end_bytes};
ghost use Rattle.change_codec.specs.Reading.{Reads, start_at, end_at, span_at};
ghost use Rattle.change_codec.specs.Writing.{Appends, HasRoom};

use crate::CodecError;
use crate::id::{put_id, take_id};
use crate::number::put_byte;
use op_model::{Anchor, End, Start};

/// Puts a start: 0 for the start of the text, else an anchor.
#[tactic(auto, unfolding(crate::specs::Spelling::start_bytes))]
pub(crate) fn put_start(start: Start, out: &mut Vec<u8>)
    requires { HasRoom out.old (start_bytes start) }
    ensures { Appends out.old out.new (start_bytes start) }
{
    match start {
        Start::OfText => put_byte(0, out),
        Start::From(anchor) => put_anchor(anchor, out),
    }
}

/// Puts an end: 3 for the end of the text, else an anchor.
#[tactic(auto, unfolding(crate::specs::Spelling::end_bytes))]
pub(crate) fn put_end(end: End, out: &mut Vec<u8>)
    requires { HasRoom out.old (end_bytes end) }
    ensures { Appends out.old out.new (end_bytes end) }
{
    match end {
        End::To(anchor) => put_anchor(anchor, out),
        End::OfText => put_byte(3, out),
    }
}

#[tactic(auto, unfolding(crate::specs::Spelling::anchor_bytes))]
fn put_anchor(anchor: Anchor, out: &mut Vec<u8>)
    requires { HasRoom out.old (anchor_bytes anchor) }
    ensures { Appends out.old out.new (anchor_bytes anchor) }
{
    match anchor {
        Anchor::Before(id) => {
            put_byte(1, out);
            put_id(id, out);
        }
        Anchor::After(id) => {
            put_byte(2, out);
            put_id(id, out);
        }
    }
}

/// Takes a start and an end from the front.
#[tactic(auto, unfolding(crate::specs::Reading::span_at))]
pub(crate) fn take_span(bytes: &[u8]) -> Result<((Start, End), &[u8]), CodecError>
    ensures { Reads (λ x. (x.0, x.1.now)) result (span_at bytes.now) }
{
    match take_start(bytes) {
        Ok((start, rest)) => match take_end(rest) {
            Ok((end, rest)) => Ok(((start, end), rest)),
            Err(fault) => Err(fault),
        },
        Err(fault) => Err(fault),
    }
}

/// Takes a start from the front. `Anchor` (36) where it isn't the start of the text or an anchor.
#[tactic(auto, unfolding(crate::specs::Reading::start_at))]
fn take_start(bytes: &[u8]) -> Result<(Start, &[u8]), CodecError>
    ensures { Reads (λ x. (x.0, x.1.now)) result (start_at bytes.now) }
{
    match bytes {
        [] => Err(CodecError::Length),
        [0, rest @ ..] => Ok((Start::OfText, rest)),
        [1, rest @ ..] => match take_id(rest) {
            Ok((id, rest)) => Ok((Start::From(Anchor::Before(id)), rest)),
            Err(fault) => Err(fault),
        },
        [2, rest @ ..] => match take_id(rest) {
            Ok((id, rest)) => Ok((Start::From(Anchor::After(id)), rest)),
            Err(fault) => Err(fault),
        },
        [_, ..] => Err(CodecError::Anchor),
    }
}

/// Takes an end from the front. `Anchor` (36) where it isn't an anchor or the end of the text.
#[tactic(auto, unfolding(crate::specs::Reading::end_at))]
fn take_end(bytes: &[u8]) -> Result<(End, &[u8]), CodecError>
    ensures { Reads (λ x. (x.0, x.1.now)) result (end_at bytes.now) }
{
    match bytes {
        [] => Err(CodecError::Length),
        [1, rest @ ..] => match take_id(rest) {
            Ok((id, rest)) => Ok((End::To(Anchor::Before(id)), rest)),
            Err(fault) => Err(fault),
        },
        [2, rest @ ..] => match take_id(rest) {
            Ok((id, rest)) => Ok((End::To(Anchor::After(id)), rest)),
            Err(fault) => Err(fault),
        },
        [3, rest @ ..] => Ok((End::OfText, rest)),
        [_, ..] => Err(CodecError::Anchor),
    }
}
