//! Those about comments.
ghost use Rattle.std.specs.Prelude.{◌≡◌, ◌==◌, ◌&&◌, ◌||◌, ℕ, Bool, List, [], cond, true, is_some};
ghost use Rattle.std.specs.Prelude.{filter, not, IfOk, OnOk, None};
ghost use Rattle.std.specs.BTreeMap.{get, is_at};
ghost use Rattle.std.specs.BTreeSet.{contains, keys, IsOrdered};
ghost use Rattle.std.specs.Ordering.{nat_cmp};
ghost use Rattle.op_model.specs.declared.mark.MarkKey.TheVariants as key;
ghost use Rattle.op_model.specs.declared.marking.Marking as stored;
ghost use Rattle.op_model.specs.Spans.{is_same_list, with_number};
ghost use Rattle.op_model.specs.Rising.{IsUp};
ghost use Rattle.comment_marks.specs.Standing.{decided, standing};
ghost use Rattle.span_flatten.specs.declared.rank.Rank as ranked;
ghost use Rattle.span_flatten.specs.Deciding.{differs, is_kept, AreDiscussed, IsNoted};
ghost use Rattle.span_flatten.specs.Picking.{is_key_at, picked};
ghost use Rattle.span_flatten.specs.Ranking.{rank_cmp, AreRanks};

use crate::rank::Rank;
use crate::ranks::Ranks;
use op_model::{CommentId, CommentIds, Marking};
use std::alloc::{AllocError, Global};
use std::collections::{BTreeMap, BTreeSet};

/// The mark operations about comments that have begun and not ended.
#[derive(Drop)]
pub struct Discussed {
    /// For each comment that was named the ranks of those about it.
    pub ranks: BTreeMap<CommentId, Ranks>,
    /// The comments that stand.
    pub standing: BTreeSet<CommentId>,
    /// Of these and the others those that didn't stand, or did, when they were noted.
    pub since: BTreeSet<CommentId>,
}

impl Discussed {
    /// None. Takes no memory.
    pub(crate) fn new(alloc: Global) -> Discussed
        ensures none { (ms : List stored.Marking) → AreDiscussed result ms [] }
        ensures noted { IsNoted result [] }
    {
        Discussed {
            ranks: BTreeMap::new(alloc),
            standing: BTreeSet::new(alloc),
            since: BTreeSet::new(alloc),
        }
    }

    /// The i-th mark operation, which is about this comment, begins. An error is out of memory
    /// (1). A search among the comments, and one among those about this one.
    pub(crate) fn begin(
        &mut self,
        alloc: Global,
        id: CommentId,
        i: usize,
        markings: &[Marking],
    ) -> Result<(), AllocError>
        ensures noted { OnOk result ((ids : List ℕ) → IsNoted self.old ids
            → IsNoted self.new ids) }
        ensures discussed { OnOk result ((set : List ℕ) → IsUp set
            → is_key_at markings.now i (key.Comment id) ≡ true
            → AreDiscussed self.old markings.now set
            → AreDiscussed self.new markings.now (with_number i set)) }
    {
        if let Some(marking) = markings.get(i) {
            insert(alloc, &mut self.ranks, id, Rank::of(marking, i))?;
            let stands = stands(&self.ranks, id, markings);
            settle(&mut self.standing, &mut self.since, id, stands)?;
        }
        Ok(())
    }

    /// The i-th mark operation, which is about this comment, ends. An error is out of memory (1).
    /// A search among the comments, and one among those about this one.
    pub(crate) fn end(
        &mut self,
        id: CommentId,
        i: usize,
        markings: &[Marking],
    ) -> Result<(), AllocError>
        ensures discussed { OnOk result ((set : List ℕ) → IsUp set
            → is_key_at markings.now i (key.Comment id) ≡ true
            → AreDiscussed self.old markings.now set
            → AreDiscussed self.new markings.now (filter (λ j. not (j == i)) set)) }
        ensures noted { OnOk result ((ids : List ℕ) → IsNoted self.old ids
            → IsNoted self.new ids) }
    {
        if let Some(marking) = markings.get(i) {
            remove(&mut self.ranks, id, Rank::of(marking, i));
            let stands = stands(&self.ranks, id, markings);
            settle(&mut self.standing, &mut self.since, id, stands)?;
        }
        Ok(())
    }

    /// Those that stand, in order. An error is out of memory (1). Linear in them.
    pub(crate) fn standing(&self, alloc: Global) -> Result<CommentIds, AllocError>
        ensures { IfOk result (λ ids. (ms : List stored.Marking) (set : List ℕ)
            → AreDiscussed self.now ms set → ids ≡ standing (picked ms set)) }
    {
        Ok(CommentIds::from(listed(alloc, &self.standing)?))
    }

    /// Notes those that stand. Linear in those that differ from those that were noted.
    pub(crate) fn note(&mut self)
        ensures { (ms : List stored.Marking) (set : List ℕ) → AreDiscussed self.old ms set
            → AreDiscussed self.new ms set × IsNoted self.new (standing (picked ms set)) }
    {
        self.since.clear();
    }

    /// Whether those that stand are those that were noted. Constant.
    pub(crate) fn are_noted(&self) -> bool
        ensures { (ids : List ℕ) (ms : List stored.Marking) (set : List ℕ) → IsNoted self.now ids
            → AreDiscussed self.now ms set
            → result ≡ is_same_list ids (standing (picked ms set)) }
    {
        self.since.is_empty()
    }
}

/// These comments, in order. An error is out of memory (1). Linear in them.
fn listed(alloc: Global, standing: &BTreeSet<CommentId>) -> Result<Vec<CommentId>, AllocError>
    ensures items { IfOk result (λ ids. ids.items ≡ keys standing.now) }
    ensures ordered { IsOrdered nat_cmp standing.now }
{
    standing.iter().copied().collect::<Vec<CommentId>>(alloc)
}

/// One more rank of a comment. An error is out of memory (1).
fn insert(
    alloc: Global,
    ranks: &mut BTreeMap<CommentId, Ranks>,
    id: CommentId,
    rank: Rank,
) -> Result<(), AllocError>
    ensures { OnOk result ((other : ℕ) (q : ranked.Rank) → is_kept (get nat_cmp ranks.new other) q
        ≡ (id == other && is_at (rank_cmp rank) q || is_kept (get nat_cmp ranks.old other) q)) }
{
    match ranks.get_mut(&id) {
        Some(about) => about.insert(rank),
        None => insert_first(alloc, ranks, id, rank),
    }
}

/// The first rank of a comment. An error is out of memory (1).
fn insert_first(
    alloc: Global,
    ranks: &mut BTreeMap<CommentId, Ranks>,
    id: CommentId,
    rank: Rank,
) -> Result<(), AllocError>
    ensures { OnOk result (get nat_cmp ranks.old id ≡ None
        → (other : ℕ) (q : ranked.Rank) → is_kept (get nat_cmp ranks.new other) q
        ≡ (id == other && is_at (rank_cmp rank) q || is_kept (get nat_cmp ranks.old other) q)) }
{
    let mut about = Ranks::new(alloc);
    about.insert(rank)?;
    ranks.insert(id, about)?;
    Ok(())
}

/// One rank less of a comment, if it is there.
fn remove(ranks: &mut BTreeMap<CommentId, Ranks>, id: CommentId, rank: Rank)
    ensures { (other : ℕ) (q : ranked.Rank) → is_kept (get nat_cmp ranks.new other) q
        ≡ (not (id == other && is_at (rank_cmp rank) q)
        && is_kept (get nat_cmp ranks.old other) q) }
{
    if let Some(about) = ranks.get_mut(&id) {
        about.remove(rank);
    }
}

/// Whether a comment stands.
fn stands(ranks: &BTreeMap<CommentId, Ranks>, id: CommentId, markings: &[Marking]) -> bool
    ensures { (set : List ℕ) → IsUp set
        → AreRanks markings.now set (key.Comment id) (is_kept (get nat_cmp ranks.now id))
        → result ≡ is_some (decided (picked markings.now set) (key.Comment id)) }
{
    match ranks.get(&id) {
        Some(about) => about.decided(markings).is_some(),
        None => false,
    }
}

/// Puts a comment among those that stand, or takes it out; if it wasn't so before, it differs from
/// what was noted where it didn't. An error is out of memory (1).
fn settle(
    standing: &mut BTreeSet<CommentId>,
    since: &mut BTreeSet<CommentId>,
    id: CommentId,
    stands: bool,
) -> Result<(), AllocError>
    ensures standing { OnOk result ((other : ℕ) → contains nat_cmp standing.new other
        ≡ cond (id == other) stands (contains nat_cmp standing.old other)) }
    ensures noted { OnOk result ((was : ℕ → Bool)
        → ((other : ℕ) → contains nat_cmp standing.old other
        ≡ differs (contains nat_cmp since.old other) (was other))
        → (other : ℕ) → contains nat_cmp standing.new other
        ≡ differs (contains nat_cmp since.new other) (was other)) }
{
    if standing.contains(&id) == stands {
        return Ok(());
    }
    put(standing, id, stands)?;
    let differed = since.contains(&id);
    put(since, id, !differed)
}

/// Puts a comment among others, or takes it out. An error is out of memory (1).
fn put(set: &mut BTreeSet<CommentId>, id: CommentId, is_in: bool) -> Result<(), AllocError>
    ensures { OnOk result ((other : ℕ) → contains nat_cmp set.new other
        ≡ cond (id == other) is_in (contains nat_cmp set.old other)) }
{
    if is_in {
        set.insert(id)?;
    } else {
        set.remove(&id);
    }
    Ok(())
}
