//! The plain insert into a list of comments in rising order.
ghost use Rattle.std.specs.Prelude.{◌≡◌, ◌≤◌, ◌++◌, ◌∷◌, length, take, drop, OnOk, MatchOption};
ghost use Rattle.op_model.specs.Spans.{with_number};

use op_model::CommentId;
use std::alloc::AllocError;

/// Puts a comment into a rising list, if it isn't there. An error is out of memory (1). Linear.
pub(crate) fn insert_rising(ids: &mut Vec<CommentId>, id: CommentId) -> Result<(), AllocError>
    ensures { OnOk result (ids.new.items ≡ with_number id ids.old.items) }
{
    if let Some(at) = place(ids, id) {
        ids.insert(at, id)?;
    }
    Ok(())
}

/// Where a comment goes in a rising list, or `None` where it is there.
fn place(ids: &[CommentId], id: CommentId) -> Option<usize>
    ensures { MatchOption result (with_number id ids.now ≡ ids.now) (λ at. (at ≤ length ids.now)
        × (with_number id ids.now ≡ take at ids.now ++ id ∷ drop at ids.now)) }
{
    for (i, other) in ids.iter().enumerate() {
        if id < *other {
            return Some(i);
        }
        if id == *other {
            return None;
        }
    }
    Some(ids.len())
}
