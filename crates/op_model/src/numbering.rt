//! The operations of an edit: what they do, and their ids, numbered from a counter on.
ghost use Rattle.std.specs.Prelude.{◌≡◌, ◌+◌, ◌≤◌, ◌<◌, true, length, IfOk};
ghost use Rattle.fixed_numbers.specs.declared.limits.TheConstants.{MAX_COUNTER};
ghost use Rattle.op_ids.specs.Clock.{advanced_by, is_clock};
ghost use Rattle.op_model.specs.Made.{numbered as numbered_from, insert_bodies as insert_bodies_of};

use crate::author::Author;
use crate::op::{Body, Op};
use op_ids::{ClockError, OpId, ReplicaId};
use std::alloc::{AllocError, Global};

/// Inserts of characters, the first behind this origin, or at the beginning where there is none,
/// each later one behind the one before; their operations have the ids of a replica from a counter
/// on. An error is out of memory (1).
pub fn insert_bodies(
    alloc: Global,
    replica: ReplicaId,
    counter: u64,
    origin: Option<OpId>,
    text: &[char],
) -> Result<Vec<Body>, AllocError>
    requires above_zero { 0 < counter }
    requires in_range { counter + length text.now ≤ MAX_COUNTER + 1 }
    ensures { IfOk result (λ bodies. bodies.items
        ≡ insert_bodies_of replica counter origin text.now) }
{
    let mut bodies = Vec::with_capacity(alloc, text.len())?;
    let mut behind = origin;
    let mut next = counter;
    for value in text {
        bodies.push(Body::Insert {
            origin: behind,
            value: *value,
        })?;
        behind = Some(OpId::new(next, replica));
        next += 1;
    }
    Ok(bodies)
}

/// An operation of a document for each body, their counters rising by one from the author's on,
/// each with its token, if there is one. The first depends on the author's clock, each later one
/// also on those before it. An error is out of memory (1).
pub fn numbered(
    alloc: Global,
    author: &Author<'_>,
    doc: u32,
    bodies: &[Body],
) -> Result<Vec<Op>, AllocError>
    requires above_zero { 0 < author.now.counter }
    requires in_range { author.now.counter + length bodies.now ≤ MAX_COUNTER + 1 }
    requires valid { is_clock author.now.clock.now ≡ true }
    requires room { is_clock
        (advanced_by author.now.clock.now author.now.replica (length bodies.now)) ≡ true }
    ensures { IfOk result (λ made. made.items ≡ numbered_from author.now.replica doc
        author.now.token author.now.counter author.now.clock.now bodies.now) }
{
    let mut ops = Vec::with_capacity(alloc, bodies.len())?;
    let mut clock = author.clock.copy()?;
    let mut next = author.counter;
    for body in bodies {
        let id = OpId::new(next, author.replica);
        ops.push(Op {
            id,
            doc,
            token: author.token,
            deps: clock.copy()?,
            body: body.copy()?,
        })?;
        match clock.advance(author.replica) {
            Ok(()) => {}
            Err(ClockError::Memory) => return Err(AllocError),
            Err(ClockError::Limit) => unreachable!(),
        }
        next += 1;
    }
    Ok(ops)
}
