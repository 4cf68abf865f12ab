//! Whether a list keeps the limits of a store.
ghost use Rattle.std.specs.Prelude.{◌≡◌, ◌+◌, ◌<◌, List, ◌++◌, length, nat_le, IfOk, OnOk, MatchOption};
ghost use Rattle.op_model.specs.declared.op.Op.{Op as Operation};
ghost use Rattle.std.specs.List.{list_all};
ghost use Rattle.op_model.specs.Rising.{IsUp};
ghost use Rattle.op_model.specs.Records.{stream_length};
ghost use Rattle.op_model.specs.Causality.{clock_of, documents as documents_of, is_in_range as is_in_its_range, is_within_limits as is_within_limits_of};

use fixed_numbers::limits::{MAX_DOCUMENTS, MAX_OPERATIONS, MAX_REPLICAS, MAX_STREAM_LENGTH};
use op_ids::Clock;
use op_model::{Op, put_among};
use std::alloc::{AllocError, Global};

/// Whether the operations, and then those made, keep the limits of a store. The clock counts all of
/// them. An error is out of memory (1).
#[tactic(auto, using(model_laws::proofs::Limits::parts))]
pub(crate) fn is_within_limits(
    alloc: Global,
    ops: &[Op],
    made: &[Op],
    clock: &Clock,
) -> Result<bool, AllocError>
    requires { clock.now ≡ clock_of (ops.now ++ made.now) }
    ensures { IfOk result (λ within. within ≡ is_within_limits_of (ops.now ++ made.now)) }
{
    let documents = documents(alloc, ops, made)?;
    Ok(
        are_in_range(ops)
            && are_in_range(made)
            && clock.len() <= MAX_REPLICAS
            && documents.len() <= MAX_DOCUMENTS
            && has_operations(ops.len(), made.len())
            && has_stream(ops, made),
    )
}

fn are_in_range(ops: &[Op]) -> bool
    ensures { result ≡ list_all is_in_its_range ops.now }
{
    ops.iter().all(|op| is_in_range(op))
}

/// A counter is always in its range, and a document below 2^32.
fn is_in_range(op: &Op) -> bool
    ensures { result ≡ is_in_its_range op.now }
{
    op.id.counter() > 0 && op.doc > 0
}

/// Whether `ops` operations, and then `made` more, are at most 2^24.
fn has_operations(ops: usize, made: usize) -> bool
    ensures { result ≡ nat_le (ops + made) MAX_OPERATIONS }
{
    ops <= MAX_OPERATIONS && made <= MAX_OPERATIONS - ops
}

fn has_stream(ops: &[Op], made: &[Op]) -> bool
    ensures { result ≡ nat_le (stream_length ops.now + stream_length made.now) MAX_STREAM_LENGTH }
{
    match room_behind(ops, MAX_STREAM_LENGTH) {
        Some(room) => room_behind(made, room).is_some(),
        None => false,
    }
}

/// What is left of `room` bytes behind the records of the operations, or `None` where they don't
/// fit.
fn room_behind(ops: &[Op], room: u64) -> Option<u64>
    ensures { MatchOption result (room < stream_length ops.now)
        (λ left. left + stream_length ops.now ≡ room) }
{
    let mut left = room;
    for op in ops {
        let length = op.record_length();
        if length > left {
            return None;
        }
        left -= length;
    }
    Some(left)
}

/// The documents that have operations, in rising order. An error is out of memory (1).
fn documents(alloc: Global, ops: &[Op], made: &[Op]) -> Result<Vec<u32>, AllocError>
    ensures { IfOk result (λ found. found.items ≡ documents_of (ops.now ++ made.now)) }
{
    let mut found = Vec::new(alloc);
    insert_documents(&mut found, made)?;
    insert_documents(&mut found, ops)?;
    Ok(found)
}

/// Puts the documents of operations among those of others that come behind them. An error is out
/// of memory (1).
fn insert_documents(found: &mut Vec<u32>, ops: &[Op]) -> Result<(), AllocError>
    requires { IsUp found.old.items }
    ensures up { OnOk result (IsUp found.new.items) }
    ensures found { OnOk result ((behind : List Operation) → found.old.items ≡ documents_of behind
        → found.new.items ≡ documents_of (ops.now ++ behind)) }
{
    let mut i = ops.len();
    while i > 0 {
        i -= 1;
        put_among(found, ops[i].doc)?;
    }
    Ok(())
}
