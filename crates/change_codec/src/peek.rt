//! What a record says while no operation is made of it: nothing here takes memory.
ghost use Rattle.std.specs.Prelude.{◌≡◌, ℕ, None, IfSome, is_ok};
ghost use Rattle.change_codec.specs.Formats.{IsOf};
ghost use Rattle.change_codec.specs.Heads.{head_of, origin_of};
ghost use Rattle.change_codec.specs.Reading.{behind_at, named_at, op_at, origin_for, rest_at, Reads};
ghost use Rattle.change_codec.specs.Record.{taken, found_length, BeginsWithOp, BeginsWithSome};
ghost use Rattle.op_model.specs.declared.op.Op.{Op as Operation};

use crate::content::{Kind, take_origin, take_whole_content};
use crate::deps::skip_deps;
use crate::head::{Head, take_head};
use crate::record::whole_body;
use crate::token::take_token;
use crate::{CodecError, Format};
use op_ids::{OpId, Token};

/// How many bytes the record takes that the bytes begin with, from 37 to 1,495, and to 1,511 in the
/// third format. `None` where they begin with no whole record of an operation of the format. One
/// pass over the record; takes no memory.
pub fn skip_op(format: Format, bytes: &[u8]) -> Option<usize>
    ensures some { IfSome result (λ n. (op : Operation)
        × IsOf format op × BeginsWithOp bytes.now op n) }
    ensures none { result ≡ None → (op : Operation) (n : ℕ) → IsOf format op
        → BeginsWithOp bytes.now op n → ⊥ }
{
    skip_record(format, bytes)
}

#[tactic(auto, unfolding(crate::specs::Record::taken))]
fn skip_record(format: Format, bytes: &[u8]) -> Option<usize>
    ensures { result ≡ found_length (taken format bytes.now) }
{
    let Ok(Some((body, len))) = whole_body(format, bytes) else {
        return None;
    };
    if is_body(format, body) {
        Some(len)
    } else {
        None
    }
}

/// Whether bytes are the body of the record of an operation of the format.
#[tactic(auto, unfolding(crate::specs::Reading::op_at))]
fn is_body(format: Format, bytes: &[u8]) -> bool
    ensures { result ≡ is_ok (op_at format bytes.now) }
{
    match take_head(format, bytes) {
        Ok((head, deps)) => match skip_deps(deps) {
            Ok(rest) => is_rest(head, rest),
            Err(_) => false,
        },
        Err(_) => false,
    }
}

/// Whether bytes are what stands behind the deps of a record with this head.
fn is_rest(head: Head, bytes: &[u8]) -> bool
    ensures { result ≡ is_ok (rest_at head.has_token head.kind bytes.now) }
{
    match take_token(head.has_token, bytes) {
        Ok((_, rest)) => take_whole_content(head.kind, rest).is_ok(),
        Err(_) => false,
    }
}

/// The kind, the document and the id of the operation whose record the bytes begin with. Constant;
/// takes no memory.
pub fn record_head(bytes: &[u8]) -> Head
    requires { BeginsWithSome bytes.now }
    ensures { (op : Operation) (n : ℕ) → BeginsWithOp bytes.now op n → result ≡ head_of op }
{
    let (_, body) = bytes.split_at(4);
    match take_head(Format::Third, body) {
        Ok((head, _)) => head,
        Err(_) => unreachable!(),
    }
}

/// The token of the operation whose record the bytes begin with, if it has one. Passes over its
/// deps, at most 16; takes no memory.
pub fn record_token(bytes: &[u8]) -> Option<Token>
    requires { BeginsWithSome bytes.now }
    ensures { (op : Operation) (n : ℕ) → BeginsWithOp bytes.now op n → result ≡ op.token }
{
    let (_, body) = bytes.split_at(4);
    match token_of_body(body) {
        Ok(token) => token,
        Err(_) => unreachable!(),
    }
}

/// The token that stands in a whole body, if it has one.
#[tactic(auto, unfolding(crate::specs::Reading::named_at))]
fn token_of_body(bytes: &[u8]) -> Result<Option<Token>, CodecError>
    ensures { Reads (λ token. token) result (named_at bytes.now) }
{
    match take_head(Format::Third, bytes) {
        Ok((head, deps)) => {
            let rest = skip_deps(deps)?;
            match take_token(head.has_token, rest) {
                Ok((token, _)) => Ok(token),
                Err(fault) => Err(fault),
            }
        }
        Err(fault) => Err(fault),
    }
}

/// The character behind which the operation inserts whose record the bytes begin with, if it
/// inserts behind one. Passes over its deps, at most 16; takes no memory.
pub fn record_origin(bytes: &[u8]) -> Option<OpId>
    requires { BeginsWithSome bytes.now }
    ensures { (op : Operation) (n : ℕ) → BeginsWithOp bytes.now op n → result ≡ origin_of op.body }
{
    let (_, body) = bytes.split_at(4);
    match origin_of_body(body) {
        Ok(origin) => origin,
        Err(_) => unreachable!(),
    }
}

/// The origin that stands in a whole body, if it has one.
#[tactic(auto, unfolding(crate::specs::Reading::behind_at))]
fn origin_of_body(bytes: &[u8]) -> Result<Option<OpId>, CodecError>
    ensures { Reads (λ origin. origin) result (behind_at bytes.now) }
{
    match take_head(Format::Third, bytes) {
        Ok((head, deps)) => {
            let rest = skip_deps(deps)?;
            match take_token(head.has_token, rest) {
                Ok((_, rest)) => origin_of_kind(head.kind, rest),
                Err(fault) => Err(fault),
            }
        }
        Err(fault) => Err(fault),
    }
}

/// The origin of what an operation of a kind does, if it has one.
fn origin_of_kind(kind: Kind, bytes: &[u8]) -> Result<Option<OpId>, CodecError>
    ensures { Reads (λ origin. origin) result (origin_for kind bytes.now) }
{
    match kind {
        Kind::Insert => match take_origin(bytes) {
            Ok((origin, _)) => Ok(origin),
            Err(fault) => Err(fault),
        },
        _ => Ok(None),
    }
}
