//! The comments that stand.
ghost use Rattle.std.specs.Prelude.{◌≡◌, ◌↔◌, ℕ, List, IsTrue, Contains, map, filter, IfOk};
ghost use Rattle.std.specs.BTreeMap.{keys};
ghost use Rattle.comment_marks.specs.Decisions.{about, is_added};
ghost use Rattle.comment_marks.specs.Standing.{standing};

use crate::decisions::{Decision, decisions};
use op_model::{CommentId, CommentIds, Marking};
use std::alloc::{AllocError, Global};
use std::collections::BTreeMap;
use std::marker::Model;

/// The comments that stand in a set of mark operations, in the order of their numbers. Contracts
/// see the list of their numbers.
#[derive(Debug, Drop)]
pub struct Comments {
    ids: CommentIds,
}

impl Model for Comments {
    ghost Value = { List ℕ };

    ghost view = { λ c. c.ids };
}

impl Comments {
    /// The comments that stand in a set: of the mark operations about each the one with the
    /// greatest id adds it. An error is out of memory (1). For each mark operation of the set a
    /// search among the comments that it names.
    pub fn of(alloc: Global, set: &[&Marking]) -> Result<Comments, AllocError>
        ensures { IfOk result (λ comments. comments ≡ standing (map (λ m. m.now) set.now)) }
    {
        let decisions = decisions(alloc, set)?;
        let ids = added(alloc, &decisions)?;
        Ok(Comments {
            ids: CommentIds::from(ids),
        })
    }

    /// The comments, in order.
    pub fn as_slice(&self) -> &[CommentId]
        ensures { result.now ≡ self.now }
    {
        self.ids.as_slice()
    }

    /// Whether a comment is one of these. Linear in them.
    pub fn contains(&self, id: CommentId) -> bool
        ensures { IsTrue result ↔ Contains self.now id }
    {
        self.ids.as_slice().contains(&id)
    }

    /// The comments, in order. Takes no memory.
    pub fn into_ids(self) -> CommentIds
        ensures { result ≡ self }
    {
        self.ids
    }
}

/// The comments that are added, in rising order. An error is out of memory (1).
fn added(
    alloc: Global,
    decisions: &BTreeMap<CommentId, Decision>,
) -> Result<Vec<CommentId>, AllocError>
    ensures { IfOk result (λ ids. ids.items
        ≡ filter (λ id. is_added (about id decisions.now.entries)) (keys decisions.now)) }
{
    Ok(
        decisions
            .keys()
            .copied()
            .filter(|id| adds(decisions, *id))
            .collect::<Vec<CommentId>>(alloc)?,
    )
}

/// Whether what is decided about a comment adds it.
fn adds(decisions: &BTreeMap<CommentId, Decision>, id: CommentId) -> bool
    ensures { result ≡ is_added (about id decisions.now.entries) }
{
    match decisions.get(&id) {
        Some(decision) => decision.adds,
        None => false,
    }
}
