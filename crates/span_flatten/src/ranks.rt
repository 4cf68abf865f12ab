//! The ranks of the mark operations of one key.
ghost use Rattle.std.specs.Prelude.{◌≡◌, ℕ, List, IsTrue, IfSome, IfNone, OnOk, cond};
ghost use Rattle.std.specs.Prelude.{true, false, option_and_then, slice_get};
ghost use Rattle.std.specs.BTreeMap.{is_at};
ghost use Rattle.std.specs.Option.{option_copied};
ghost use Rattle.std.specs.Ordering.{is_lt};
ghost use Rattle.op_model.specs.declared.mark.MarkKey.{MarkKey};
ghost use Rattle.op_model.specs.Rising.{IsUp};
ghost use Rattle.comment_marks.specs.Standing.{decided};
ghost use Rattle.span_flatten.specs.declared.rank.Rank as ranked;
ghost use Rattle.span_flatten.specs.Picking.{picked};
ghost use Rattle.span_flatten.specs.Ranking.{has_rank, rank_cmp, AreRanks};

use crate::rank::Rank;
use op_model::{Mark, Marking};
use std::alloc::{AllocError, Global};
use std::collections::BTreeSet;

/// The ranks of the mark operations of one key that have begun and not ended.
#[derive(Drop)]
pub struct Ranks {
    pub set: BTreeSet<Rank>,
}

impl Ranks {
    /// None. Takes no memory.
    pub(crate) fn new(alloc: Global) -> Ranks
        ensures { (q : ranked.Rank) → has_rank result q ≡ false }
    {
        Ranks {
            set: BTreeSet::new(alloc),
        }
    }

    /// One more. An error is out of memory (1). A search among them.
    pub(crate) fn insert(&mut self, rank: Rank) -> Result<(), AllocError>
        ensures { OnOk result ((q : ranked.Rank) → has_rank self.new q
            ≡ cond (is_at (rank_cmp rank) q) true (has_rank self.old q)) }
    {
        self.set.insert(rank)?;
        Ok(())
    }

    /// One less, if it is there. A search among them.
    pub(crate) fn remove(&mut self, rank: Rank)
        ensures { (q : ranked.Rank) → has_rank self.new q
            ≡ cond (is_at (rank_cmp rank) q) false (has_rank self.old q) }
    {
        self.set.remove(&rank);
    }

    /// The greatest.
    fn top(&self) -> Option<Rank>
        ensures some { IfSome result (λ r. IsTrue (has_rank self.now r)
            × ((q : ranked.Rank) → IsTrue (has_rank self.now q) → is_lt (rank_cmp r q) ≡ false)) }
        ensures none { IfNone result ((q : ranked.Rank) → has_rank self.now q ≡ false) }
    {
        self.set.last().copied()
    }

    /// The mark for their key, if these are the ranks of the mark operations that are about it.
    pub(crate) fn decided<'a>(&self, markings: &'a [Marking]) -> Option<&'a Mark>
        ensures { (set : List ℕ) (key : MarkKey) → IsUp set
            → AreRanks markings.now set key (has_rank self.now)
            → option_copied result ≡ decided (picked markings.now set) key }
    {
        match self.top() {
            Some(rank) => mark_at(markings, rank.before.0),
            None => None,
        }
    }
}

/// The mark that a mark operation adds.
fn mark_at(markings: &[Marking], i: usize) -> Option<&Mark>
    ensures { option_copied result ≡ option_and_then (λ m. m.mark) (slice_get markings.now i) }
{
    match markings.get(i) {
        Some(marking) => marking.mark.as_ref(),
        None => None,
    }
}
