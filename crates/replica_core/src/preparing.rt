//! What is kept with an action.
ghost use Rattle.std.specs.Prelude.{◌≡◌, ◌+◌, ◌<◌, ◌^◌, ◌++◌, List, [], length, true, IfOk, IfErr, None};
ghost use Rattle.doc_core.specs.Standing.{StandsFor};
ghost use Rattle.op_model.specs.declared.op.Op.{Op as Operation};
ghost use Rattle.op_model.specs.Actions.{asked, refusal_of};
ghost use Rattle.op_model.specs.Causality.{clock_of, is_within_limits, IsCausallyClosed};
ghost use Rattle.op_model.specs.Held.{ReplicaHeld};
ghost use Rattle.op_model.specs.Made.{edit_refusal, size_of};
ghost use Rattle.op_model.specs.Text.{rev as rev_of};
ghost use Rattle.replica_core.specs.Decided.{IsPrepared};
ghost use Rattle.replica_core.specs.Deciding.{AreCounted};
ghost use Rattle.replica_core.specs.Docs.{doc_number};
ghost use Rattle.replica_core.specs.Turns.{IsBehind};
ghost use Rattle.model_laws.specs.Acting.{NoneRefused};

use crate::copying::Copying;
use crate::counting::count_all;
use crate::docs;
use crate::edited::Edited;
use crate::knowledge::Knowledge;
use crate::making::made;
use crate::prepared::Prepared;
use crate::refusal::Refusal;
use doc_core::Doc;
use edit_tokens::Place;
use op_ids::Clock;
use op_model::{Action, Edit, Op};
use run_list::RunSlice;
use std::alloc::{AllocError, Global};

/// The operations of an action of a document that nothing refuses, and what is kept with them. An
/// error is out of memory (1). Costs what `Doc::make` does for one change; for several what they
/// take on a copy of the document, which is linear in it. A few steps for clocks.
pub(crate) fn prepared(
    alloc: Global,
    ops: &RunSlice<'_>,
    known: &Knowledge<'_>,
    doc: &Doc,
    action: &Action,
) -> Result<Prepared, Refusal>
    requires counted { AreCounted ops.now known.now.clock.now known.now.index.now }
    requires due { refusal_of ops.now known.now.replica action.now ≡ None }
    requires stands { StandsFor doc.now ops.now }
    requires number { doc_number doc.now ≡ action.now.doc }
    ensures prepared { IfOk result (λ p. (h : ReplicaHeld) → h.list ≡ ops.now
        → h.replica ≡ known.now.replica → IsPrepared h action.now p) }
    ensures memory { IfErr result (λ e. e ≡ Refusal.Memory) }
{
    if action.others().is_empty() {
        return prepared_one(alloc, ops, known, doc, action.first());
    }
    prepared_several(alloc, ops, known, doc, action)
}

/// The same for one change.
fn prepared_one(
    alloc: Global,
    ops: &RunSlice<'_>,
    known: &Knowledge<'_>,
    doc: &Doc,
    edit: &Edit,
) -> Result<Prepared, Refusal>
    requires counted { AreCounted ops.now known.now.clock.now known.now.index.now }
    requires due { edit_refusal ops.now known.now.replica edit.now ≡ None }
    requires stands { StandsFor doc.now ops.now }
    requires number { doc_number doc.now ≡ edit.now.doc }
    ensures prepared { IfOk result (λ p. (h : ReplicaHeld) → h.list ≡ ops.now
        → h.replica ≡ known.now.replica → IsPrepared h (asked edit.now []) p) }
    ensures memory { IfErr result (λ e. e ≡ Refusal.Memory) }
{
    let made = made(alloc, ops, known, doc, edit)?;
    let clock = clock_behind(known.clock, made.as_slice())?;
    let place = place_behind(ops, doc, edit);
    Ok(Prepared {
        edited: Edited::One(made),
        clock,
        place,
    })
}

/// The same for several: each is made on a copy of the document, which has those before it.
fn prepared_several(
    alloc: Global,
    ops: &RunSlice<'_>,
    known: &Knowledge<'_>,
    doc: &Doc,
    action: &Action,
) -> Result<Prepared, Refusal>
    requires counted { AreCounted ops.now known.now.clock.now known.now.index.now }
    requires due { NoneRefused ops.now known.now.replica action.now.doc action.now.token
        action.now.changes }
    requires stands { StandsFor doc.now ops.now }
    requires number { doc_number doc.now ≡ action.now.doc }
    ensures prepared { IfOk result (λ p. (h : ReplicaHeld) → h.list ≡ ops.now
        → h.replica ≡ known.now.replica → IsPrepared h action.now p) }
    ensures memory { IfErr result (λ e. e ≡ Refusal.Memory) }
{
    let first = action.first();
    // From this the proof has that some operation is made.
    let _some = first.change.size();
    let mut copying = copying(alloc, known, doc)?;
    copying.make(alloc, known.replica, first.token, &first.change)?;
    let others = action.others();
    for change in others {
        copying.make(alloc, known.replica, first.token, change)?;
    }
    let place = Place {
        end: (ops.len() + copying.ops.len()) as u32,
        rev: copying.doc.rev() as u32,
    };
    Ok(Prepared {
        edited: Edited::Several {
            ops: copying.ops,
            copy: copying.doc,
        },
        clock: copying.clock,
        place,
    })
}

/// A copy of a document of a list, before changes are made on it. An error is out of memory (1).
/// Linear in the document.
fn copying(alloc: Global, known: &Knowledge<'_>, doc: &Doc) -> Result<Copying, AllocError>
    requires { (ops : List Operation) × AreCounted ops known.now.clock.now known.now.index.now }
    ensures made { IfOk result (λ m. m.ops.items ≡ []) }
    ensures number { IfOk result (λ m. doc_number m.doc ≡ doc_number doc.now) }
    ensures behind { IfOk result (λ m. (ops : List Operation)
        → AreCounted ops known.now.clock.now known.now.index.now → StandsFor doc.now ops
        → IsBehind m ops) }
{
    Ok(Copying {
        doc: doc.copy()?,
        clock: known.clock.copy()?,
        counter: known.index.greatest + 1,
        ops: Vec::new(alloc),
    })
}

/// A clock that counts operations too that come behind those that it counts, with which they keep
/// the limits of a store. An error is out of memory (1).
fn clock_behind(clock: &Clock, ops: &[Op]) -> Result<Clock, AllocError>
    requires { (earlier : List Operation) × (clock.now ≡ clock_of earlier)
        × (is_within_limits (earlier ++ ops.now) ≡ true) }
    ensures { IfOk result (λ behind. (earlier : List Operation) → clock.now ≡ clock_of earlier
        → behind ≡ clock_of (earlier ++ ops.now)) }
{
    let mut behind = clock.copy()?;
    count_all(&mut behind, ops)?;
    Ok(behind)
}

/// How long a list is with the operations of an edit of a document behind it, and how many
/// operations the document has then. Constant.
fn place_behind(ops: &RunSlice<'_>, doc: &Doc, edit: &Edit) -> Place
    requires closed { IsCausallyClosed ops.now }
    requires stands { StandsFor doc.now ops.now }
    requires few { length ops.now + size_of edit.now.change < 2 ^ 32 }
    requires few_of_doc { rev_of ops.now (doc_number doc.now) + size_of edit.now.change < 2 ^ 32 }
    ensures end { result.end ≡ length ops.now + size_of edit.now.change }
    ensures some { 0 < size_of edit.now.change }
    ensures rev { result.rev ≡ rev_of ops.now (doc_number doc.now) + size_of edit.now.change }
{
    let count = edit.change.size();
    Place {
        end: (ops.len() + count) as u32,
        rev: (docs::count(doc, ops) + count) as u32,
    }
}
