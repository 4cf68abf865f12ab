//! Whether an operation may follow a list.
ghost use Rattle.std.specs.Prelude.{◌≡◌, ◌<◌, ◌++◌, ◌∷◌, [], ◌&&◌, ◌==◌, nat_le, nat_lt, length, MatchOption, Some, None};
ghost use Rattle.fixed_numbers.specs.declared.limits.TheConstants.{MAX_DOCUMENTS};
ghost use Rattle.op_model.specs.Causality.{IsCausallyClosed, documents, first_failed as first_failed_of};
ghost use Rattle.op_model.specs.Causality.{is_counted_up as is_counted_up_of, is_covered_insert as is_covered_insert_of, is_known as is_known_in};
ghost use Rattle.op_model.specs.Causality.{is_within_limits, named_by_anchor, named_by_end, named_by_start, names_inserts as names_inserts_of};
ghost use Rattle.op_model.specs.Spans.{with_number};
ghost use Rattle.replica_core.specs.Deciding.{AreCounted, names_all};
ghost use Rattle.replica_core.specs.Indexes.{IsIndexOf};
ghost use Rattle.replica_core.specs.Refusal.{number_of};

use crate::deciding::has_room;
use crate::index::Index;
use crate::named::{head_at, is_covered_insert};
use crate::refusal::Refusal;
use op_ids::{Clock, OpId};
use op_model::{Anchor, Body, End, Op, Start};
use run_list::RunSlice;

/// Whether a clock counts an operation: more of its replica than it depends on. At most 32 steps.
pub(crate) fn is_known(clock: &Clock, op: &Op) -> bool
    ensures { result ≡ is_known_in clock.now op.now }
{
    let replica = op.id.replica();
    op.deps.get(replica) < clock.get(replica)
}

/// Of an operation that is ready, the first check that fails: `Counter` (21), `Names` (22),
/// `Document` (23), `StoreLimit` (24); it is known whether there are at most 1,024 documents with
/// its own. Takes no memory. A few steps for clocks, and what `is_covered_insert` costs for each
/// character that it names.
pub(crate) fn first_failed(
    ops: &RunSlice<'_>,
    clock: &Clock,
    index: &Index,
    op: &Op,
    has_place: bool,
) -> Option<Refusal>
    requires counted { AreCounted ops.now clock.now index.now }
    requires place { has_place
        ≡ nat_le (length (with_number op.now.doc (documents ops.now))) MAX_DOCUMENTS }
    ensures { MatchOption result (first_failed_of ops.now op.now ≡ None)
        (λ e. first_failed_of ops.now op.now ≡ Some (number_of e)) }
{
    if !is_counted_up(ops, index, op) {
        return Some(Refusal::Counter);
    }
    if !names_inserts(ops, index, op) {
        return Some(Refusal::Names);
    }
    if op.doc == 0 {
        return Some(Refusal::Document);
    }
    if !fits(ops, clock, index, op, has_place) {
        return Some(Refusal::StoreLimit);
    }
    None
}

/// Whether the counter is greater than that of the last operation of its replica, and so than that
/// of each earlier one.
pub(crate) fn is_counted_up(ops: &RunSlice<'_>, index: &Index, op: &Op) -> bool
    requires closed { IsCausallyClosed ops.now }
    requires index { IsIndexOf index.now ops.now }
    ensures { result ≡ is_counted_up_of ops.now op.now }
{
    match index.places_of(op.id.replica()) {
        Some(places) => places.is_empty()
            || head_at(ops, places, places.len() - 1).id.counter() < op.id.counter(),
        None => true,
    }
}

/// Whether what an operation names are inserts of its document that its deps cover, with smaller
/// counters.
pub(crate) fn names_inserts(ops: &RunSlice<'_>, index: &Index, op: &Op) -> bool
    requires closed { IsCausallyClosed ops.now }
    requires index { IsIndexOf index.now ops.now }
    ensures { result ≡ names_inserts_of ops.now op.now }
{
    match &op.body {
        Body::Insert { origin: None, .. } => true,
        Body::Insert {
            origin: Some(origin),
            ..
        } => names_insert(ops, index, op, origin),
        Body::Remove { target } => names_insert(ops, index, op, target),
        Body::AddMark { start, end, .. } => names_at_start(ops, index, op, start)
            && names_at_end(ops, index, op, end),
        Body::RemoveMark { start, end, .. } => names_at_start(ops, index, op, start)
            && names_at_end(ops, index, op, end),
    }
}

fn names_at_start(ops: &RunSlice<'_>, index: &Index, op: &Op, start: &Start) -> bool
    requires closed { IsCausallyClosed ops.now }
    requires index { IsIndexOf index.now ops.now }
    ensures { result ≡ names_all ops.now op.now (named_by_start start.now) }
{
    match start {
        Start::OfText => true,
        Start::From(anchor) => names_at_anchor(ops, index, op, anchor),
    }
}

fn names_at_end(ops: &RunSlice<'_>, index: &Index, op: &Op, end: &End) -> bool
    requires closed { IsCausallyClosed ops.now }
    requires index { IsIndexOf index.now ops.now }
    ensures { result ≡ names_all ops.now op.now (named_by_end end.now) }
{
    match end {
        End::To(anchor) => names_at_anchor(ops, index, op, anchor),
        End::OfText => true,
    }
}

fn names_at_anchor(ops: &RunSlice<'_>, index: &Index, op: &Op, anchor: &Anchor) -> bool
    requires closed { IsCausallyClosed ops.now }
    requires index { IsIndexOf index.now ops.now }
    ensures { result ≡ names_all ops.now op.now (named_by_anchor anchor.now) }
{
    match anchor {
        Anchor::Before(id) => names_insert(ops, index, op, id),
        Anchor::After(id) => names_insert(ops, index, op, id),
    }
}

/// Whether an id that an operation names is that of an insert of its document that its deps cover,
/// with a smaller counter.
fn names_insert(ops: &RunSlice<'_>, index: &Index, op: &Op, id: &OpId) -> bool
    requires closed { IsCausallyClosed ops.now }
    requires index { IsIndexOf index.now ops.now }
    ensures { result ≡ (is_covered_insert_of ops.now op.now.deps op.now.doc id.now
        && nat_lt id.now.counter op.now.id.counter) }
{
    is_covered_insert(ops, index, op, id) && id.counter() < op.id.counter()
}

/// Whether the operations, and then this one, keep the limits of a store.
pub(crate) fn fits(
    ops: &RunSlice<'_>,
    clock: &Clock,
    index: &Index,
    op: &Op,
    has_place: bool,
) -> bool
    requires known { AreCounted ops.now clock.now index.now }
    requires place { has_place
        ≡ nat_le (length (with_number op.now.doc (documents ops.now))) MAX_DOCUMENTS }
    requires document { 0 < op.now.doc }
    ensures { result ≡ is_within_limits (ops.now ++ op.now ∷ []) }
{
    // From these the proof has that the counter and the document are in range.
    let _counter = op.id.counter();
    let _document = op.doc;
    if !clock.can_advance(op.id.replica()) {
        return false;
    }
    has_room(ops, has_place, index.stream, 1, op.record_length())
}
