//! The characters that marks end just after.
ghost use Rattle.std.specs.Prelude.{◌≡◌, ◌<◌, ◌++◌, option_to_list, vec_len, vec_capacity, IfOk};
ghost use Rattle.mark_anchors.specs.Ended.{ended_by, ended_of};

use op_ids::OpId;
use op_model::{Anchor, End, Marking};
use std::alloc::{AllocError, Global};

/// The characters that these mark operations end just after, in their order. An error is out of
/// memory (1).
pub(crate) fn listed(alloc: Global, markings: &[Marking]) -> Result<Vec<OpId>, AllocError>
    ensures { IfOk result (λ ids. ids.items ≡ ended_of markings.now) }
{
    let mut ids = Vec::new(alloc);
    for marking in markings {
        ids.reserve(1)?;
        note(&mut ids, &marking.end);
    }
    Ok(ids)
}

/// Puts the character that a mark operation ends just after behind others, where there is room.
pub(crate) fn note(ids: &mut Vec<OpId>, end: &End)
    requires { vec_len ids.old < vec_capacity ids.old }
    ensures { ids.new.items ≡ ids.old.items ++ ended_by end.now }
{
    if let Some(id) = ended_id(end) {
        match ids.push(id) {
            Ok(()) => {}
            Err(_) => unreachable!(),
        }
    }
}

/// The character that a mark operation with this end ends just after, if it does.
fn ended_id(end: &End) -> Option<OpId>
    ensures { option_to_list result ≡ ended_by end.now }
{
    match end {
        End::OfText => None,
        End::To(Anchor::Before(_)) => None,
        End::To(Anchor::After(id)) => Some(*id),
    }
}
