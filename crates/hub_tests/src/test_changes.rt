//! What the tests ask of what changed in a document.
use crate::replica_asks::Turn;
use op_model::{ChangeStep, Text};
use replica_core::Replica;
use std::alloc::Global;

/// What changed in document 1 since it had so many operations: 1 if it is these steps, 0 if not, 2
/// if it isn't told.
pub fn changes(alloc: Global, replica: &Replica, since: usize, turns: &[Turn]) -> Option<usize> {
    let Some(steps) = replica.changes(1, since).ok()? else {
        return Some(2);
    };
    Some(are_turns(alloc, &steps, turns)? as usize)
}

fn are_turns(alloc: Global, steps: &[ChangeStep], turns: &[Turn]) -> Option<bool> {
    if steps.len() != turns.len() {
        return Some(false);
    }
    for (step, turn) in steps.iter().zip(turns) {
        if !is_turn(alloc, step, turn)? {
            return Some(false);
        }
    }
    Some(true)
}

fn is_turn(alloc: Global, step: &ChangeStep, turn: &Turn) -> Option<bool> {
    Some(match (step, turn) {
        (ChangeStep::Keep(count), Turn::Keep(wanted)) => *count == *wanted,
        (ChangeStep::Drop(count), Turn::Drop(wanted)) => *count == *wanted,
        (ChangeStep::Mark(count, _), Turn::Mark(wanted)) => *count == *wanted,
        (ChangeStep::Put(span), Turn::Put(wanted)) => {
            let wanted: Vec<char> = wanted.chars().collect(alloc).ok()?;
            span.text == Text::from(wanted)
        }
        _ => false,
    })
}
