//! What the operations of an edit do, and whether they keep the limits.
ghost use Rattle.std.specs.Prelude.{◌≡◌, ◌+◌, ◌≤◌, ◌<◌, true, length, map, IfOk};
ghost use Rattle.fixed_numbers.specs.declared.limits.TheConstants.{MAX_COUNTER};
ghost use Rattle.op_ids.specs.Clock.{is_clock};
ghost use Rattle.op_model.specs.declared.op.Body.TheVariants.{Remove};
ghost use Rattle.doc_core.specs.Limits.{keep_limits as keep_limits_of};
ghost use Rattle.doc_core.specs.Typing.{run_from};

use fixed_numbers::limits::{MAX_COUNTER, MAX_EDIT};
use op_ids::{OpId, ReplicaId};
use op_model::{Author, Body};
use std::alloc::{AllocError, Global};

/// Whether the author's next `count` operations keep the limits. Takes no memory.
pub(crate) fn keep_limits(author: &Author<'_>, count: usize) -> bool
    ensures value { result ≡ keep_limits_of author.now count }
    ensures rising { is_clock author.now.clock.now ≡ true }
{
    let counter = author.counter;
    let has_room = author.clock.can_advance_by(author.replica, count as u64);
    count <= MAX_EDIT && counter > 0 && counter <= MAX_COUNTER + 1 - count as u64 && has_room
}

/// The ids and the characters of a run of inserts from a counter on.
pub(crate) fn run(
    alloc: Global,
    replica: ReplicaId,
    counter: u64,
    text: &[char],
) -> Result<Vec<(OpId, char)>, AllocError>
    requires above_zero { 0 < counter }
    requires in_range { counter + length text.now ≤ MAX_COUNTER + 1 }
    ensures { IfOk result (λ run. run.items ≡ run_from replica counter text.now) }
{
    let mut run = Vec::with_capacity(alloc, text.len())?;
    let mut next = counter;
    for value in text {
        run.push((OpId::new(next, replica), *value))?;
        next += 1;
    }
    Ok(run)
}

/// Removes of characters.
pub(crate) fn remove_bodies(alloc: Global, targets: &[OpId]) -> Result<Vec<Body>, AllocError>
    ensures { IfOk result (λ bodies. bodies.items ≡ map Remove targets.now) }
{
    targets
        .iter()
        .map(|target| Body::Remove { target: *target })
        .collect(alloc)
}
