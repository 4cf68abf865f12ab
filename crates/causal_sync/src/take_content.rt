//! What a whole frame says behind its length.
ghost use Rattle.causal_sync.specs.declared.heard.Heard.TheVariants as frame;
ghost use Rattle.causal_sync.specs.declared.link_error.LinkError.TheVariants.{Memory, Record};
ghost use Rattle.change_codec.specs.declared.codec_error.CodecError.TheVariants as codec;
ghost use Rattle.std.specs.Prelude.{◌≡◌, ◌≢◌, ◌⊎◌};
ghost use Rattle.causal_sync.specs.Reading.{content_at, count_at, greeting_at, have_at, hello_at, name_at, other_at};
ghost use Rattle.causal_sync.specs.Reading.{later_at, ops_at, record_at, records_at};
ghost use Rattle.causal_sync.specs.Taking.{Gives, Reads};

use crate::heard::{Heard, Ops};
use crate::link_error::LinkError;
use change_codec::{CodecError, Format, take_clock};
use fixed_numbers::limits::MAX_TOLD;
use op_ids::ReplicaId;
use op_pieces::Piece;
use piece_codec::take_piece;
use std::alloc::Global;

/// What the content of a frame says, where it is the first one or a later one.
pub(crate) fn take_content(
    alloc: Global,
    own: ReplicaId,
    is_first: bool,
    content: &[u8],
) -> Result<Heard, LinkError>
    ensures { Gives (λ x. x) result (content_at own is_first content.now) }
{
    if is_first {
        return match take_hello(own, content) {
            Ok(replica) => Ok(Heard::Hello(replica)),
            Err(fault) => Err(fault),
        };
    }
    take_later(alloc, content)
}

/// The replica of a first frame.
#[tactic(auto, unfolding(crate::specs::Reading::hello_at))]
fn take_hello(own: ReplicaId, content: &[u8]) -> Result<ReplicaId, LinkError>
    ensures { Reads frame.Hello result (hello_at own content.now) }
{
    match take_greeting(content) {
        Ok(rest) => take_other_name(own, rest),
        Err(fault) => Err(fault),
    }
}

/// The replica that a HELLO names, which isn't the own one.
#[tactic(auto, unfolding(crate::specs::Reading::other_at))]
fn take_other_name(own: ReplicaId, bytes: &[u8]) -> Result<ReplicaId, LinkError>
    ensures { Reads frame.Hello result (other_at own bytes.now) }
{
    match take_name(bytes) {
        Ok(replica) => {
            if replica == own {
                return Err(LinkError::BadHello);
            }
            Ok(replica)
        }
        Err(fault) => Err(fault),
    }
}

/// The bytes behind a HELLO's type and format.
fn take_greeting(content: &[u8]) -> Result<&[u8], LinkError>
    ensures { Reads (λ rest. rest.now) result (greeting_at content.now) }
{
    let [1, payload @ ..] = content else {
        return Err(LinkError::BadHello);
    };
    let Some((format, rest)) = payload.split_first_chunk::<2>() else {
        return Err(LinkError::BadHello);
    };
    if u16::from_be_bytes(*format) != 3 {
        return Err(LinkError::BadHello);
    }
    Ok(rest)
}

/// A replica, and nothing behind it.
fn take_name(bytes: &[u8]) -> Result<ReplicaId, LinkError>
    ensures { Reads (λ replica. replica) result (name_at bytes.now) }
{
    let Some((name, rest)) = bytes.split_first_chunk::<16>() else {
        return Err(LinkError::BadHello);
    };
    let Some(replica) = ReplicaId::read(*name) else {
        return Err(LinkError::BadHello);
    };
    if !rest.is_empty() {
        return Err(LinkError::BadHello);
    }
    Ok(replica)
}

/// What a frame behind the first says: its type, and its payload.
#[tactic(auto, unfolding(crate::specs::Reading::later_at))]
fn take_later(alloc: Global, content: &[u8]) -> Result<Heard, LinkError>
    ensures { Gives (λ x. x) result (later_at content.now) }
{
    match content {
        [1, ..] => Err(LinkError::BadHello),
        [2, payload @ ..] => take_have(alloc, payload),
        [3, payload @ ..] => take_records(alloc, payload),
        [4] => Ok(Heard::Bye),
        _ => Err(LinkError::BadFrame),
    }
}

/// A clock, and nothing behind it.
#[tactic(auto, unfolding(crate::specs::Reading::have_at))]
fn take_have(alloc: Global, payload: &[u8]) -> Result<Heard, LinkError>
    ensures { Gives (λ x. x) result (have_at payload.now) }
{
    match take_clock(alloc, payload) {
        Ok((clock, [])) => Ok(Heard::Have(clock)),
        Err(CodecError::Memory) => Err(LinkError::Memory),
        _ => Err(LinkError::BadFrame),
    }
}

/// The number of records, and each of them, with nothing behind them.
#[tactic(auto, unfolding(crate::specs::Reading::ops_at))]
fn take_records(alloc: Global, payload: &[u8]) -> Result<Heard, LinkError>
    ensures { Gives (λ x. x) result (ops_at payload.now) }
{
    match take_count(payload) {
        Ok((count, records)) => match take_each(alloc, count, records) {
            Ok(pieces) => Ok(Heard::Ops(Ops::new(pieces))),
            Err(fault) => Err(fault),
        },
        Err(fault) => Err(fault),
    }
}

/// The number of records: 1 to `MAX_TOLD`.
#[tactic(auto, unfolding(crate::specs::Reading::count_at, change_codec::specs::Reading::number_at))]
fn take_count(payload: &[u8]) -> Result<(u16, &[u8]), LinkError>
    ensures { Reads (λ x. (x.0, x.1.now)) result (count_at payload.now) }
{
    let Some((count, records)) = payload.split_first_chunk::<2>() else {
        return Err(LinkError::BadFrame);
    };
    let count = u16::from_be_bytes(*count);
    if count == 0 || count as usize > MAX_TOLD {
        return Err(LinkError::BadFrame);
    }
    Ok((count, records))
}

/// This many records, and nothing behind them. One pass.
fn take_each(alloc: Global, count: u16, records: &[u8]) -> Result<Vec<Piece>, LinkError>
    ensures { Gives (λ pieces. pieces.items) result (records_at count records.now) }
{
    let Ok(mut pieces) = Vec::with_capacity(alloc, count as usize) else {
        return Err(LinkError::Memory);
    };
    let mut rest = records;
    for _ in 0..count {
        match take_record(alloc, rest) {
            Ok((piece, after)) => {
                pieces.push_reserved(piece);
                rest = after;
            }
            Err(fault) => return Err(fault),
        }
    }
    if !rest.is_empty() {
        return Err(LinkError::BadFrame);
    }
    Ok(pieces)
}

/// A whole record, and the bytes behind it.
#[tactic(auto, unfolding(crate::specs::Reading::record_at))]
fn take_record(alloc: Global, bytes: &[u8]) -> Result<(Piece, &[u8]), LinkError>
    ensures { Gives (λ x. (x.0, x.1.now)) result (record_at bytes.now) }
{
    match take_piece(alloc, Format::Third, bytes) {
        Ok(Some((piece, len))) => Ok((piece, bytes.split_at(len).1)),
        Ok(None) => Err(LinkError::BadFrame),
        Err(fault) => Err(link_error(fault)),
    }
}

/// What a record that the codec refuses makes of the link.
fn link_error(fault: CodecError) -> LinkError
    ensures { (result ≡ Memory) ⊎ ((fault ≢ codec.Memory) × (result ≡ Record fault)) }
{
    if fault == CodecError::Memory {
        return LinkError::Memory;
    }
    LinkError::Record(fault)
}
