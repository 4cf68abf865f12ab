//! Whether an action keeps the limits of a store.
ghost use Rattle.std.specs.Prelude.{◌≡◌, ◌+◌, ◌++◌, ◌&&◌, nat_le, length, IfOk, IfErr, Some, None};
ghost use Rattle.fixed_numbers.specs.declared.limits.TheConstants.{MAX_COUNTER, MAX_DOCUMENTS};
ghost use Rattle.doc_core.specs.Standing.{StandsFor};
ghost use Rattle.replica_core.specs.Docs.{doc_number};
ghost use Rattle.op_model.specs.Causality.{documents, is_within_limits as is_within_limits_of};
ghost use Rattle.op_model.specs.Made.{edit_refusal as edit_refusal_of, made as made_of};
ghost use Rattle.op_model.specs.Records.{stream_length};
ghost use Rattle.op_model.specs.Spans.{with_number};
ghost use Rattle.op_model.specs.Actions.{refusal_of};
ghost use Rattle.op_model.specs.Waiting.{action_length as action_length_of, change_length};
ghost use Rattle.replica_core.specs.Deciding.{AreCounted};
ghost use Rattle.replica_core.specs.Refusal.{number_of};
ghost use Rattle.model_laws.specs.Asking.{IsAskedRight};

use crate::docs::count;
use crate::knowledge::Knowledge;
use crate::lengths::{made_length, waiting_length};
use crate::refusal::Refusal;
use crate::several::several_length;
use doc_core::Doc;
use fixed_numbers::limits::{MAX_COUNTER, MAX_OPERATIONS, MAX_STREAM_LENGTH};
use op_model::{Action, Edit};
use run_list::RunSlice;

/// For how many bytes there has to be room among those that wait for a commit where an action of a
/// document is made, or why it is refused, by the first cause: `Stale` (6), then `Range` (5) and
/// `Limit` (7) in turn. There is room for its document or not. Takes no memory. A few steps for
/// each change, and what `Doc::origin` costs for one insert alone at the beginning.
pub(crate) fn action_length(
    ops: &RunSlice<'_>,
    known: &Knowledge<'_>,
    doc: &Doc,
    has_place: bool,
    action: &Action,
) -> Result<u64, Refusal>
    requires counted { AreCounted ops.now known.now.clock.now known.now.index.now }
    requires stands { StandsFor doc.now ops.now }
    requires number { doc_number doc.now ≡ action.now.doc }
    requires place { has_place
        ≡ nat_le (length (with_number action.now.doc (documents ops.now))) MAX_DOCUMENTS }
    ensures due { IfOk result (λ bytes.
        refusal_of ops.now known.now.replica action.now ≡ None) }
    ensures length { IfOk result (λ bytes. bytes
        ≡ action_length_of ops.now known.now.replica action.now) }
    ensures refused { IfErr result (λ e.
        refusal_of ops.now known.now.replica action.now ≡ Some (number_of e)) }
{
    if action.others().is_empty() {
        return edit_length(ops, known, doc, has_place, action.first());
    }
    match several_length(ops, known, doc, has_place, action) {
        Ok(bytes) => Ok(bytes),
        Err(refused) => Err(refused.why),
    }
}

/// The same for one change. Constant, but for an insert at the beginning, which costs what
/// `Doc::origin` does.
fn edit_length(
    ops: &RunSlice<'_>,
    known: &Knowledge<'_>,
    doc: &Doc,
    has_place: bool,
    edit: &Edit,
) -> Result<u64, Refusal>
    requires counted { AreCounted ops.now known.now.clock.now known.now.index.now }
    requires stands { StandsFor doc.now ops.now }
    requires number { doc_number doc.now ≡ edit.now.doc }
    requires place { has_place
        ≡ nat_le (length (with_number edit.now.doc (documents ops.now))) MAX_DOCUMENTS }
    ensures length { IfOk result (λ bytes.
        (edit_refusal_of ops.now known.now.replica edit.now ≡ None)
        × (bytes ≡ change_length edit.now.change (made_of ops.now known.now.replica edit.now))) }
    ensures refused { IfErr result (λ e.
        edit_refusal_of ops.now known.now.replica edit.now ≡ Some (number_of e)) }
{
    if !edit.is_at_rev(count(doc, ops)) {
        return Err(Refusal::Stale);
    }
    if !doc.is_inside(&edit.change) {
        return Err(Refusal::Range);
    }
    if !edit.change.is_small() {
        return Err(Refusal::Limit);
    }
    let bytes = made_length(doc, known.clock, known.replica, edit);
    if !is_within_limits(ops, known, has_place, edit, bytes) {
        return Err(Refusal::Limit);
    }
    Ok(waiting_length(doc, known.clock, edit, bytes))
}

/// Whether the operations, and then those of an edit that asks right, keep the limits of a store.
/// There is room for its document or not, and the records that it makes take `bytes` bytes.
fn is_within_limits(
    ops: &RunSlice<'_>,
    known: &Knowledge<'_>,
    has_place: bool,
    edit: &Edit,
    bytes: u64,
) -> bool
    requires counted { AreCounted ops.now known.now.clock.now known.now.index.now }
    requires right { IsAskedRight ops.now edit.now }
    requires place { has_place
        ≡ nat_le (length (with_number edit.now.doc (documents ops.now))) MAX_DOCUMENTS }
    requires length { bytes ≡ stream_length (made_of ops.now known.now.replica edit.now) }
    ensures { result ≡ is_within_limits_of (ops.now ++ made_of ops.now known.now.replica edit.now) }
{
    let count = edit.change.size() as u64;
    if edit.doc == 0 {
        return false;
    }
    if !has_counters(known.index.greatest, count) {
        return false;
    }
    if !known.clock.can_advance(known.replica) {
        return false;
    }
    has_room(ops, has_place, known.index.stream, count as usize, bytes)
}

/// Whether there are `count` counters above `greatest`.
fn has_counters(greatest: u64, count: u64) -> bool
    ensures { result ≡ nat_le (greatest + count) MAX_COUNTER }
{
    count <= MAX_COUNTER && greatest <= MAX_COUNTER - count
}

/// Whether there is room for `count` operations behind the others, where their document has a place
/// or not, with records of `bytes` bytes behind a stream of `stream` bytes.
pub(crate) fn has_room(
    ops: &RunSlice<'_>,
    has_place: bool,
    stream: u64,
    count: usize,
    bytes: u64,
) -> bool
    ensures { result ≡ (has_place && nat_le (length ops.now + count) MAX_OPERATIONS
        && nat_le (stream + bytes) MAX_STREAM_LENGTH) }
{
    has_place && has_operations(ops.len(), count) && has_stream(stream, bytes)
}

/// Whether `ops` operations, and then `more` others, are at most 2^24.
fn has_operations(ops: usize, more: usize) -> bool
    ensures { result ≡ nat_le (ops + more) MAX_OPERATIONS }
{
    ops <= MAX_OPERATIONS && more <= MAX_OPERATIONS - ops
}

/// Whether `stream` bytes, and then `bytes` others, are at most 2^30 bytes.
fn has_stream(stream: u64, bytes: u64) -> bool
    ensures { result ≡ nat_le (stream + bytes) MAX_STREAM_LENGTH }
{
    stream <= MAX_STREAM_LENGTH && bytes <= MAX_STREAM_LENGTH - stream
}
