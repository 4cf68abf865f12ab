//! What is decided of each comment.
ghost use Rattle.std.specs.Prelude.{◌≡◌, map, IfOk, OnOk};
ghost use Rattle.op_model.specs.Spans.{comment_of};
ghost use Rattle.comment_marks.specs.Decisions.{decisions as decisions_of, about, greater, says, with_decision};

use op_ids::OpId;
use op_model::{CommentId, MarkKey, Marking};
use std::alloc::{AllocError, Global};
use std::collections::BTreeMap;

/// What the greatest mark operation about a comment says: its id, and whether it adds the comment.
#[derive(Clone, Copy, Debug)]
pub struct Decision {
    pub id: OpId,
    pub adds: bool,
}

impl Decision {
    /// Of this decision and another, if there is one, the one with the greater id.
    fn greater(self, other: Option<Decision>) -> Decision
        ensures { result ≡ greater self other }
    {
        match other {
            Some(other) if self.id.is_below(other.id) => other,
            _ => self,
        }
    }
}

/// What a set of mark operations decides about each comment that it names. An error is out of
/// memory (1). For each of them a search among the comments.
pub(crate) fn decisions(
    alloc: Global,
    set: &[&Marking],
) -> Result<BTreeMap<CommentId, Decision>, AllocError>
    ensures { IfOk result (λ found. found.entries ≡ decisions_of (map (λ m. m.now) set.now)) }
{
    let mut found = BTreeMap::new(alloc);
    let mut i = set.len();
    while i > 0 {
        i -= 1;
        decide(&mut found, set[i])?;
    }
    Ok(found)
}

/// Takes one more mark operation. An error is out of memory (1).
fn decide(found: &mut BTreeMap<CommentId, Decision>, marking: &Marking) -> Result<(), AllocError>
    ensures { OnOk result (found.new.entries
        ≡ with_decision (comment_of marking.now.key) (says marking.now) found.old.entries) }
{
    if let MarkKey::Comment(id) = marking.key {
        let decision = Decision {
            id: marking.id,
            adds: marking.mark.is_some(),
        };
        let greatest = decision.greater(found.get(&id).copied());
        found.insert(id, greatest)?;
    }
    Ok(())
}
