//! Whole records.
ghost use Rattle.std.specs.Prelude.{◌≡◌, ◌≢◌, ◌⊎◌, ◌↔◌, ◌++◌, ℕ, [], Ok, Err, Some, None, IfSome, IsErrOf, OnOk, OnErr, IfOk, IfErr, IsOk};
ghost use Rattle.change_codec.specs.declared.codec_error.CodecError.TheVariants.{Memory};
ghost use Rattle.change_codec.specs.Lent.{Gives, HasUrl, AddsNoLink, OwnsNothing, body_of, deps_of};
ghost use Rattle.change_codec.specs.Reading.{deps_at, op_at, rest_at, with_head, Reads};
ghost use Rattle.change_codec.specs.Record.{framed, found_body, taken, first_fault, whole_body, Answers, IsPartial, BeginsWithOp, BeginsWithOneOf};
ghost use Rattle.change_codec.specs.Formats.{IsOf};
ghost use Rattle.op_model.specs.declared.op.Op.{Op as Operation};
ghost use Rattle.change_codec.specs.Spelling.{body_bytes, spelled};
ghost use Rattle.change_codec.specs.Writing.{Appends, HasRoom};

use crate::content::{LentBody, put_content, record_byte, take_whole_content};
use crate::deps::{collect_deps, put_deps, skip_deps};
use crate::head::{Head, take_head};
use crate::id::put_id;
use crate::number::{put_byte, put_u32, take_u32};
use crate::token::{put_token, take_token};
use crate::{CodecError, Format};
use fixed_numbers::sizes::MIN_RECORD;
use op_ids::Token;
use op_model::Op;
use std::alloc::{AllocError, Global};

/// Appends the record of an operation: four bytes for the length of its body, and the body. Memory
/// is reserved once, before anything is written; each byte is written once. An error is out of
/// memory (1), and leaves the bytes as they were.
pub fn put_op(op: &Op, out: &mut Vec<u8>) -> Result<(), AllocError>
    ensures ok { OnOk result (out.new.items ≡ out.old.items ++ spelled op.now) }
    ensures err { OnErr result (out.new.items ≡ out.old.items) }
{
    let len = op.record_length();
    out.reserve(len as usize)?;
    put_u32((len - 4) as u32, out);
    put_body(op, out);
    Ok(())
}

#[tactic(auto, unfolding(crate::specs::Spelling::body_bytes))]
fn put_body(op: &Op, out: &mut Vec<u8>)
    requires { HasRoom out.old (body_bytes op.now) }
    ensures { Appends out.old out.new (body_bytes op.now) }
{
    put_byte(record_byte(op), out);
    put_u32(op.doc, out);
    put_id(op.id, out);
    put_deps(&op.deps, out);
    put_token(op.token, out);
    put_content(&op.body, out);
}

/// Takes the operation of a format whose record the bytes begin with, and the number of bytes that
/// it takes: at least 37. `None` where fewer than four bytes are there, or fewer than the record
/// has.
///
/// A length that isn't from 33 to 1,491, or to 1,507 in the third format, is `Length` (30). In a
/// whole record the first field that breaks its rule decides, in their order: `Length` where it
/// reaches past the end of the body, and also where bytes are left behind the last one; `Kind` (31)
/// for no kind of record of the format, of origin or of mark; `Number` (32) for a counter that
/// isn't from 1 to 2^48 - 1, a nil replica or token, more than 16 deps, a count that isn't from 1
/// to 2^24, or a URL that isn't of 1 to 1,024 bytes; `Scalar` (33) for no Unicode scalar value;
/// `Utf8` (34) for a URL that isn't UTF-8; `Order` (35) where the replicas of the deps don't rise;
/// `Anchor` (36) for no anchor, a start at the end of the text, or an end at its start. `Memory`
/// (1) may only stand in place of an operation, which depends on some or adds a link. Nothing is
/// consumed by a refusal.
///
/// One pass over the record; the entries of its deps, and a URL, are then read again as they are
/// copied, into one allocation each.
pub fn take_op(
    alloc: Global,
    format: Format,
    bytes: &[u8],
) -> Result<Option<(Op, usize)>, CodecError>
    // An operation is found exactly where the first bytes spell it, and the format has it.
    ensures found { IfOk result (λ found. IfSome found (λ f. IsOf format f.0
        × BeginsWithOp bytes.now f.0 f.1)) }
    ensures only { (op : Operation) (n : ℕ) → IsOf format op → BeginsWithOp bytes.now op n
        → (result ≡ Ok (Some (op, n))) ⊎ (result ≡ Err Memory) }

    // Nothing is found exactly where the record isn't all there.
    ensures partial { (result ≡ Ok None) ↔ IsPartial format bytes.now }

    // A fault is the first one.
    ensures fault { (e : CodecError) → e ≢ Memory
        → (IsErrOf result e ↔ (first_fault format bytes.now ≡ Some e)) }
    ensures memory { IsErrOf result Memory → BeginsWithOneOf format bytes.now }

    // It needs no memory for an operation that depends on nothing and adds no link.
    ensures small { (op : Operation) (n : ℕ) → IsOf format op → BeginsWithOp bytes.now op n
        → OwnsNothing op → result ≡ Ok (Some (op, n)) }
{
    take_record(alloc, format, bytes)
}

/// Takes the record at the front.
#[tactic(auto, unfolding(crate::specs::Record::taken))]
fn take_record(
    alloc: Global,
    format: Format,
    bytes: &[u8],
) -> Result<Option<(Op, usize)>, CodecError>
    ensures answers { Answers result (taken format bytes.now) }
    ensures small { (op : Operation) (n : ℕ) → taken format bytes.now ≡ Ok (Some (op, n))
        → OwnsNothing op → IsOk result }
{
    match whole_body(format, bytes) {
        Ok(Some((body, len))) => {
            let op = take_body(alloc, format, body)?;
            Ok(Some((op, len)))
        }
        Ok(None) => Ok(None),
        Err(fault) => Err(fault),
    }
}

/// The body of the record at the front, and how many bytes the record takes. `None` where fewer
/// than four bytes are there, or fewer than the record has. `Length` (30) for a length that no
/// record of the format has.
#[tactic(auto, unfolding(crate::specs::Reading::number_at))]
pub fn whole_body(format: Format, bytes: &[u8]) -> Result<Option<(&[u8], usize)>, CodecError>
    ensures { Reads found_body result (framed whole_body format bytes.now) }
{
    let Ok((len, rest)) = take_u32(bytes) else {
        return Ok(None);
    };
    let len = len as usize;
    if len < MIN_RECORD || len > format.longest() {
        return Err(CodecError::Length);
    }
    if rest.len() < len {
        return Ok(None);
    }
    Ok(Some((&rest[..len], 4 + len)))
}

/// Takes the operation that a whole body gives.
#[tactic(auto, unfolding(crate::specs::Reading::op_at))]
fn take_body(alloc: Global, format: Format, bytes: &[u8]) -> Result<Op, CodecError>
    ensures given { Gives (λ op. op) result (op_at format bytes.now) }
    ensures small { (op : Operation) → op_at format bytes.now ≡ Ok op → OwnsNothing op
        → IsOk result }
{
    match take_head(format, bytes) {
        Ok((head, deps)) => {
            let rest = skip_deps(deps)?;
            take_rest(alloc, head, deps, rest)
        }
        Err(fault) => Err(fault),
    }
}

/// Takes what stands behind the deps of a record.
fn take_rest(alloc: Global, head: Head, deps: &[u8], bytes: &[u8]) -> Result<Op, CodecError>
    requires tested { IsOk (deps_at deps.now) }
    ensures given { Gives (λ op. op) result (with_head head (deps_of deps.now)
        (rest_at head.has_token head.kind bytes.now)) }
    ensures small { (op : Operation) → with_head head (deps_of deps.now)
        (rest_at head.has_token head.kind bytes.now) ≡ Ok op → OwnsNothing op → IsOk result }
{
    match take_token(head.has_token, bytes) {
        Ok((token, rest)) => match take_whole_content(head.kind, rest) {
            Ok(body) => make_op(alloc, head, deps, token, body),
            Err(fault) => Err(fault),
        },
        Err(fault) => Err(fault),
    }
}

/// The operation with memory of its own. An error is out of memory (1).
fn make_op(
    alloc: Global,
    head: Head,
    deps: &[u8],
    token: Option<Token>,
    body: LentBody<'_>,
) -> Result<Op, CodecError>
    requires tested { IsOk (deps_at deps.now) }
    requires url { HasUrl (body_of body) }
    ensures ok { IfOk result (λ op. op ≡ record {
      id = head.id;
      doc = head.doc;
      token = token;
      deps = deps_of deps.now;
      body = body_of body.entry;
    }) }
    ensures err { IfErr result (λ error. error ≡ Memory) }
    ensures small { deps_of deps.now ≡ [] → AddsNoLink (body_of body.entry) → IsOk result }
{
    let deps = collect_deps(alloc, deps)?;
    let body = body.to_body(alloc)?;
    Ok(Op {
        id: head.id,
        doc: head.doc,
        token,
        deps,
        body,
    })
}
