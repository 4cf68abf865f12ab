//! Whether several changes at once keep the limits of a store.
ghost use Rattle.std.specs.Prelude.{◌≡◌, ◌≤◌, ◌<◌, ◌+◌, ◌-◌, ◌^◌, min, nat_le, length, IfOk, IfErr, Some, None};
ghost use Rattle.fixed_numbers.specs.declared.limits.TheConstants.{MAX_COUNTER, MAX_DOCUMENTS, MAX_OPERATIONS, MAX_REPLICAS};
ghost use Rattle.doc_core.specs.Standing.{StandsFor};
ghost use Rattle.op_ids.specs.Clock.{advanced};
ghost use Rattle.op_model.specs.Actions.{all_wait_at_most, head_at_most as head_at_most_of, refused_several};
ghost use Rattle.op_model.specs.Causality.{clock_of, documents};
ghost use Rattle.op_model.specs.Spans.{with_number};
ghost use Rattle.replica_core.specs.Deciding.{AreCounted};
ghost use Rattle.replica_core.specs.Docs.{doc_number};
ghost use Rattle.replica_core.specs.Refusal.{number_of};
ghost use Rattle.replica_core.specs.RefusedAt.{place_in};
ghost use Rattle.replica_core.specs.Turns.{IsTurnOf};

use crate::docs::count;
use crate::knowledge::Knowledge;
use crate::refusal::Refusal;
use crate::turn::Turn;
use doc_core::Doc;
use fixed_numbers::limits::{
    MAX_COUNTER, MAX_OPERATIONS, MAX_PENDING, MAX_REPLICAS, MAX_STREAM_LENGTH,
};
use op_ids::{Clock, ReplicaId, Token};
use op_model::{Action, head_length, token_length};
use run_list::RunSlice;

/// Why several changes are refused, and after how many of them.
#[derive(Clone, Copy, Debug)]
pub struct RefusedChange {
    pub at: usize,
    pub why: Refusal,
}

impl RefusedChange {
    /// The place of the change, if it is the one that is refused: `Stale` (6) is for all of them.
    pub(crate) fn place(self) -> Option<usize>
        ensures { result ≡ place_in (Some (self.at, number_of self.why)) }
    {
        if self.why.is_for_a_change() {
            Some(self.at)
        } else {
            None
        }
    }
}

/// The most bytes that the changes of an action add to what waits for a commit, or why it is
/// refused, by the first cause: `Stale` (6), then `Range` (5) and `Limit` (7) in turn, and after
/// how many changes. There is room for its document or not. Takes no memory. A few steps for each
/// change.
pub(crate) fn several_length(
    ops: &RunSlice<'_>,
    known: &Knowledge<'_>,
    doc: &Doc,
    has_place: bool,
    action: &Action,
) -> Result<u64, RefusedChange>
    requires counted { AreCounted ops.now known.now.clock.now known.now.index.now }
    requires stands { StandsFor doc.now ops.now }
    requires number { doc_number doc.now ≡ action.now.doc }
    requires place { has_place
        ≡ nat_le (length (with_number action.now.doc (documents ops.now))) MAX_DOCUMENTS }
    ensures due { IfOk result (λ bytes.
        refused_several ops.now known.now.replica action.now ≡ None) }
    ensures length { IfOk result (λ bytes. bytes
        ≡ all_wait_at_most (length (advanced (clock_of ops.now) known.now.replica))
        action.now.token action.now.changes) }
    ensures refused { IfErr result (λ e.
        refused_several ops.now known.now.replica action.now ≡ Some (e.at, number_of e.why)) }
{
    let first = action.first();
    if !first.is_at_rev(count(doc, ops)) {
        return Err(RefusedChange {
            at: 0,
            why: Refusal::Stale,
        });
    }
    let replicas = replicas_behind(known.clock, known.replica);
    let head = head_at_most(replicas, first.token);
    let mut turn = turn_behind(ops, known, doc, replicas, has_place);
    if let Err(why) = turn.take(head, &first.change) {
        return Err(RefusedChange { at: 0, why });
    }
    let others = action.others();
    for (i, change) in others.iter().enumerate() {
        if let Err(why) = turn.take(head, change) {
            return Err(RefusedChange { at: i + 1, why });
        }
    }
    Ok(MAX_PENDING - turn.waiting)
}

/// The text and the room after a list, for changes of a document: there is room for it or not, and
/// the clock counts so many replicas then.
fn turn_behind(
    ops: &RunSlice<'_>,
    known: &Knowledge<'_>,
    doc: &Doc,
    replicas: usize,
    has_place: bool,
) -> Turn
    requires counted { AreCounted ops.now known.now.clock.now known.now.index.now }
    requires stands { StandsFor doc.now ops.now }
    requires replicas { replicas ≡ length (advanced (clock_of ops.now) known.now.replica) }
    requires place { has_place
        ≡ nat_le (length (with_number (doc_number doc.now) (documents ops.now))) MAX_DOCUMENTS }
    ensures turn { IsTurnOf result ops.now known.now.replica (doc_number doc.now) }
    ensures few { result.shown + result.operations < 2 ^ 64 }
{
    let may_change = doc.number() > 0 && has_place && replicas <= MAX_REPLICAS;
    Turn {
        shown: doc.shown(),
        operations: if may_change {
            operations_left(ops.len(), known.index.greatest)
        } else {
            0
        },
        stream: MAX_STREAM_LENGTH.saturating_sub(known.index.stream),
        waiting: MAX_PENDING,
    }
}

/// How many operations, with counters of their own, there may be after so many, the greatest
/// counter of which is given.
fn operations_left(count: usize, greatest: u64) -> u64
    ensures value { result ≡ min (MAX_OPERATIONS - count) (MAX_COUNTER - greatest) }
    ensures few { result ≤ MAX_OPERATIONS }
{
    let operations = MAX_OPERATIONS.saturating_sub(count) as u64;
    operations.min(MAX_COUNTER.saturating_sub(greatest))
}

/// The bytes of a record's head and token, where a clock counts so many replicas. Constant.
fn head_at_most(replicas: usize, token: Option<Token>) -> u64
    requires { replicas ≤ MAX_REPLICAS + 1 }
    ensures value { result ≡ head_at_most_of replicas token }
    ensures few { result ≤ 1000 }
{
    head_length(replicas) + token_length(token.is_some())
}

/// How many replicas a clock counts after an operation of this one. A search by halves.
fn replicas_behind(clock: &Clock, replica: ReplicaId) -> usize
    ensures value { result ≡ length (advanced clock.now replica) }
    ensures few { result ≤ MAX_REPLICAS + 1 }
{
    let first = clock.len();
    if clock.get(replica) == 0 {
        first + 1
    } else {
        first
    }
}
