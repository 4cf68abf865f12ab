//! Edits, as the definitions make operations of them.
ghost use Rattle.std.specs.Prelude.{◌≡◌, ◌≢◌, ◌↔◌, ◌+◌, ◌≤◌, ◌<◌, ◌++◌, length, map};
ghost use Rattle.std.specs.Prelude.{Some, None, true, false, IfOk, IfErr, IsErrOf, ℕ};
ghost use Rattle.fixed_numbers.specs.declared.limits.TheConstants.{MAX_COUNTER};
ghost use Rattle.op_model.specs.Text.{visible as visible_of, rev as rev_of};
ghost use Rattle.op_model.specs.Causality.{is_within_limits as is_within_limits_of};
ghost use Rattle.op_model.specs.Made.{is_at_rev as is_at_rev_of, is_inside as is_inside_of};
ghost use Rattle.op_model.specs.Made.{made as made_of, bodies_of as bodies_in, edit_refusal, origin_of};
ghost use Rattle.op_model.specs.Made.{end_of, size_of};
ghost use Rattle.op_model.specs.Made.{greatest_counter as greatest_in};
ghost use Rattle.slow_programs.specs.EditError.{number_of};
ghost use Rattle.model_laws.specs.Asking.{IsAskedRight};

use crate::edit_error::EditError;
use crate::limits::is_within_limits;
use crate::numbering::{clock_of, greatest_counter};
use crate::order::walk;
use crate::placing::{behind, id_at, id_before, last_end};
use crate::reading::{rev, visible};
use fixed_numbers::limits::MAX_COUNTER;
use op_ids::{OpId, ReplicaId};
use op_model::{
    Author, Body, Change, Character, Edit, End, MarkKey, Op, Start, insert_bodies, numbered,
};
use std::alloc::{AllocError, Global};

/// Whether a change lies within a text of `count` characters.
pub fn is_inside(count: usize, change: &Change) -> bool
    ensures { result ≡ is_inside_of count change.now }
{
    match change {
        Change::Insert { at, .. } => *at as usize <= count,
        Change::Delete { at, count: removed } => *at as usize + removed.get() as usize <= count,
        Change::Mark { from, to, .. } => *from < *to && *to as usize <= count,
        Change::Unmark { from, to, .. } => *from < *to && *to as usize <= count,
    }
}

/// Where an insert behind `at` visible characters hangs.
fn origin(
    alloc: Global,
    ops: &[Op],
    doc: u32,
    seen: &[Character],
    at: usize,
) -> Result<Option<OpId>, AllocError>
    requires { seen.now ≡ visible_of ops.now doc }
    ensures { IfOk result (λ origin. origin ≡ origin_of ops.now doc at) }
{
    let walked = walk(alloc, ops, doc)?;
    let rest = walked.split_at(behind(ops, doc, &walked, at)).1;
    Ok(last_end(ops, doc, id_before(seen, at), rest))
}

/// Strong and em end just before the next visible character, or at the end of the text: they grow
/// there. A link and a comment end just after their last character: they don't.
fn end(seen: &[Character], key: &MarkKey, to: usize) -> End
    ensures { result ≡ end_of seen.now key.now to }
{
    match key {
        MarkKey::Strong | MarkKey::Em => End::before(id_at(seen, to)),
        MarkKey::Link | MarkKey::Comment(_) => End::after(id_before(seen, to)),
    }
}

/// What an edit's operations do, which are the author's next ones.
fn bodies(
    alloc: Global,
    author: &Author<'_>,
    ops: &[Op],
    edit: &Edit,
    seen: &[Character],
) -> Result<Vec<Body>, AllocError>
    requires seen { seen.now ≡ visible_of ops.now edit.now.doc }
    requires inside { is_inside_of (length seen.now) edit.now.change ≡ true }
    requires counter { author.now.counter ≡ greatest_in ops.now + 1 }
    requires in_range { author.now.counter + size_of edit.now.change ≤ MAX_COUNTER + 1 }
    ensures { IfOk result (λ bodies. bodies.items
        ≡ bodies_in ops.now author.now.replica edit.now.doc edit.now.change) }
{
    let mut bodies = Vec::new(alloc);
    match &edit.change {
        Change::Insert { at, text } => {
            let origin = origin(alloc, ops, edit.doc, seen, *at as usize)?;
            let (replica, counter) = (author.replica, author.counter);
            return insert_bodies(alloc, replica, counter, origin, text.as_slice());
        }
        Change::Delete { at, count } => {
            let removed = seen
                .split_at(*at as usize)
                .1
                .split_at(count.get() as usize)
                .0;
            return remove_bodies(alloc, removed);
        }
        Change::Mark { from, to, mark } => bodies.push(Body::AddMark {
            mark: mark.copy()?,
            start: Start::before(id_at(seen, *from as usize)),
            end: end(seen, &mark.key(), *to as usize),
        })?,
        Change::Unmark { from, to, key } => bodies.push(Body::RemoveMark {
            key: *key,
            start: Start::before(id_at(seen, *from as usize)),
            end: end(seen, key, *to as usize),
        })?,
    }
    Ok(bodies)
}

fn remove_bodies(alloc: Global, removed: &[Character]) -> Result<Vec<Body>, AllocError>
    ensures { IfOk result (λ bodies. bodies.items ≡ map (λ c. Body.Remove c.id) removed.now) }
{
    removed
        .iter()
        .map(|character| Body::Remove {
            target: character.id,
        })
        .collect(alloc)
}

/// The characters that a reader sees of the edit's document, where nothing but a limit of the store
/// may refuse the edit.
fn readable(alloc: Global, ops: &[Op], edit: &Edit) -> Result<Vec<Character>, EditError>
    ensures seen { IfOk result (λ seen. seen.items ≡ visible_of ops.now edit.now.doc) }
    ensures ok { IfOk result (λ _. IsAskedRight ops.now edit.now) }
    ensures stale { IsErrOf result EditError.Stale
        ↔ (is_at_rev_of (rev_of ops.now edit.now.doc) edit.now.rev ≡ false) }
    ensures refused { IfErr result (λ e. e ≢ EditError.Memory
        → (replica : ℕ) → edit_refusal ops.now replica edit.now ≡ Some (number_of e)) }
{
    if !edit.is_at_rev(rev(ops, edit.doc)) {
        return Err(EditError::Stale);
    }
    let seen = visible(alloc, ops, edit.doc)?;
    if !is_inside(seen.len(), &edit.change) {
        return Err(EditError::Range);
    }
    if !edit.change.is_small() {
        return Err(EditError::Limit);
    }
    Ok(seen)
}

/// The operations of an edit that asks right, where they keep the limits of a store.
fn made_within(
    alloc: Global,
    ops: &[Op],
    replica: ReplicaId,
    edit: &Edit,
    seen: &[Character],
) -> Result<Vec<Op>, EditError>
    requires seen { seen.now ≡ visible_of ops.now edit.now.doc }
    requires right { IsAskedRight ops.now edit.now }
    ensures made { IfOk result (λ made. made.items ≡ made_of ops.now replica edit.now) }
    ensures within { IfOk result (λ _.
        is_within_limits_of (ops.now ++ made_of ops.now replica edit.now) ≡ true) }
    ensures limit { IfErr result (λ e. e ≢ EditError.Memory → (e ≡ EditError.Limit)
        × (is_within_limits_of (ops.now ++ made_of ops.now replica edit.now) ≡ false)) }
{
    let next = greatest_counter(ops) + 1;
    let count = edit.change.size() as u64;
    if next + count > MAX_COUNTER + 1 {
        return Err(EditError::Limit);
    }
    let before = clock_of(alloc, ops)?;
    let mut clock = before.copy()?;
    clock.advance_by(replica, count)?;
    let author = Author {
        replica,
        token: edit.token,
        counter: next,
        clock: &before,
    };
    let bodies = bodies(alloc, &author, ops, edit, seen)?;
    let made = numbered(alloc, &author, edit.doc, &bodies)?;
    if !is_within_limits(alloc, ops, &made, &clock)? {
        return Err(EditError::Limit);
    }
    Ok(made)
}

/// The operations that an edit adds to a replica's list. It is refused by the first cause, in this
/// order: `Stale` (6), `Range` (5), `Limit` (7). `Memory` (1), where a growth was refused, may
/// stand in place of the last two, since the document is read before they are tested.
pub fn made(
    alloc: Global,
    ops: &[Op],
    replica: ReplicaId,
    edit: &Edit,
) -> Result<Vec<Op>, EditError>
    ensures made { IfOk result (λ made. made.items ≡ made_of ops.now replica edit.now) }
    ensures due { IfOk result (λ _. edit_refusal ops.now replica edit.now ≡ None) }
    ensures stale { IsErrOf result EditError.Stale
        ↔ (is_at_rev_of (rev_of ops.now edit.now.doc) edit.now.rev ≡ false) }
    ensures refused { IfErr result (λ e. e ≢ EditError.Memory
        → edit_refusal ops.now replica edit.now ≡ Some (number_of e)) }
{
    let seen = readable(alloc, ops, edit)?;
    made_within(alloc, ops, replica, edit, &seen)
}
