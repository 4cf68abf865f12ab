//! Whether the character that an operation names is there for it.
ghost use Rattle.std.specs.Prelude.{◌≡◌, ◌<◌, ◌==◌, ◌&&◌, length, take, slice_index_or};
ghost use Rattle.std.specs.List.{list_any};
ghost use Rattle.op_ids.specs.Id.{is_same};
ghost use Rattle.op_list.specs.Heads.{heads};
ghost use Rattle.op_model.specs.Causality.{is_covered_insert as is_covered_insert_of, is_insert as is_insert_of, IsCausallyClosed};
ghost use Rattle.replica_core.specs.Indexes.{IsIndexOf};
ghost use Rattle.replica_core.specs.Makers.{at_places, AreBelow, Climb};

use crate::index::Index;
use op_ids::OpId;
use op_list::OpHead;
use op_model::Op;
use run_list::RunSlice;

/// Whether an insert of the operation's document with this id is among the operations that its deps
/// cover. Takes no memory. A look at two heads where the id's replica edits alone, else a binary
/// search among its operations, with a look at one for each step; each look is a search by halves.
pub(crate) fn is_covered_insert(ops: &RunSlice<'_>, index: &Index, op: &Op, id: &OpId) -> bool
    requires closed { IsCausallyClosed ops.now }
    requires index { IsIndexOf index.now ops.now }
    ensures { result ≡ is_covered_insert_of ops.now op.now.deps op.now.doc id.now }
{
    let covered = op.deps.get(id.replica()) as usize;
    match index.places_of(id.replica()) {
        Some(places) => has_insert(ops, first(places, covered), op.doc, id),
        None => false,
    }
}

/// The first `count` of these indexes, or all of them.
fn first(places: &[u32], count: usize) -> &[u32]
    ensures { result.now ≡ take count places.now }
{
    if count < places.len() {
        return places.split_at(count).0;
    }
    places
}

/// Whether one of the operations at these indexes inserts the character of an id into a document.
/// It is looked for first where it stands if their replica made all counters in between.
fn has_insert(ops: &RunSlice<'_>, places: &[u32], doc: u32, id: &OpId) -> bool
    requires below { AreBelow (length ops.now) places.now }
    requires climb { Climb (at_places ops.now places.now) }
    ensures { result
        ≡ list_any (λ op. is_same op.id id.now && op.doc == doc && is_insert_of op.body)
        (at_places ops.now places.now) }
{
    let guess = guessed(ops, places, id.counter());
    if guess < places.len() {
        let head = head_at(ops, places, guess);
        if head.id.counter() == id.counter() {
            return is_insert_at(&head, doc, id);
        }
    }
    has_insert_by_halves(ops, places, doc, id)
}

/// Which of the operations at these indexes has a counter, if their replica made all counters in
/// between.
fn guessed(ops: &RunSlice<'_>, places: &[u32], counter: u64) -> usize
    requires { AreBelow (length ops.now) places.now }
{
    if places.is_empty() {
        return 0;
    }
    let first = head_at(ops, places, 0).id.counter();
    counter.saturating_sub(first) as usize
}

/// Whether one of the operations at these indexes inserts the character of an id into a document.
/// Their counters rise, so it is searched by halves.
fn has_insert_by_halves(ops: &RunSlice<'_>, places: &[u32], doc: u32, id: &OpId) -> bool
    requires below { AreBelow (length ops.now) places.now }
    requires climb { Climb (at_places ops.now places.now) }
    ensures { result
        ≡ list_any (λ op. is_same op.id id.now && op.doc == doc && is_insert_of op.body)
        (at_places ops.now places.now) }
{
    let wanted = id.counter();
    let mut rest = places;
    while !rest.is_empty() {
        let middle = rest.len() / 2;
        let head = head_at(ops, rest, middle);
        let counter = head.id.counter();
        if counter == wanted {
            return is_insert_at(&head, doc, id);
        }
        rest = if counter < wanted {
            rest.split_at(middle + 1).1
        } else {
            rest.split_at(middle).0
        };
    }
    false
}

/// Of the operations at these indexes the head of the k-th one, counted from 0.
pub(crate) fn head_at(ops: &RunSlice<'_>, places: &[u32], k: usize) -> OpHead
    requires below { AreBelow (length ops.now) places.now }
    requires there { k < length places.now }
    ensures { result ≡ slice_index_or (heads (at_places ops.now places.now)) k result }
{
    ops.head(places[k] as usize)
}

/// Whether an operation with this head inserts the character of an id into a document.
fn is_insert_at(head: &OpHead, doc: u32, id: &OpId) -> bool
    ensures { result ≡ (is_same head.now.id id.now && head.now.doc == doc && head.now.is_insert) }
{
    head.id.is_same(*id) && head.doc == doc && head.is_insert
}
