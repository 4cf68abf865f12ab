//! What a session watches of a hub, and of what it is to be told.
ghost use Rattle.std.specs.Prelude.{◌≡◌, ◌≤◌, ◌⊎◌, ◌↔◌, ℕ, true, false, length, [], None, Some};
ghost use Rattle.std.specs.Prelude.{IfOk, IfSome, IsTrue, OnOk};
ghost use Rattle.shared_hub.specs.WatchingSeveral.{LooksOn, is_among, is_watched};

use run_list::RunSlice;
use std::alloc::{AllocError, Global};
use std::collections::BTreeSet;
use std::marker::Model;

/// How many operations are looked at at once: meanwhile nobody else has the lock.
const LOOK: usize = 4_096;

/// The documents that a session watches, one by one or all, and those of which it is to be told: a
/// document is due once, however much of it has changed. They take some 16 bytes of memory each.
///
/// It goes round by round: it looks at what was settled since, up to a goal, and all of which it is
/// to be told then is told before it looks again. So no document keeps another one waiting.
#[derive(Drop)]
pub struct WatchBook {
    /// The documents that are watched; `None` for all.
    docs: Option<BTreeSet<u32>>,
    /// Those of which the session is to be told.
    due: BTreeSet<u32>,
    /// How many operations, from the beginning of the list, were looked at.
    looked: usize,
    /// How many are looked at before anything more is told.
    goal: usize,
}

/// Contracts see which documents are watched, which of them are due, and how many operations were
/// looked at.
impl Model for WatchBook {
    ghost use Rattle.std.specs.Prelude.{◌≡◌, ℕ, true, option_map};
    ghost use Rattle.std.specs.BTreeSet.{keys};
    ghost use Rattle.shared_hub.specs.WatchingSeveral.{WatchHeld, is_among, is_watched};

    ghost Value = { WatchHeld };

    ghost view = { λ b. record {
      docs = option_map (λ docs. keys docs) b.docs;
      due = keys b.due;
      looked = b.looked;
    } };

    ghost invariant = { λ b. (doc : ℕ) → is_among (keys b.due) doc ≡ true
        → is_watched (option_map (λ docs. keys docs) b.docs) doc ≡ true };
}

impl WatchBook {
    /// All documents: none of them is due, and no operation was looked at. Takes no memory.
    pub fn of_all(alloc: Global) -> WatchBook
        ensures all { (doc : ℕ) → is_watched result.docs doc ≡ true }
        ensures none { (doc : ℕ) → is_among result.due doc ≡ false }
        ensures looked { result.looked ≡ 0 }
    {
        WatchBook {
            docs: None,
            due: BTreeSet::new(alloc),
            looked: 0,
            goal: 0,
        }
    }

    /// These documents: each of them is due, and so many operations were looked at. An error is
    /// out of memory (1).
    pub(crate) fn of_these(
        alloc: Global,
        docs: &[u32],
        looked: usize,
    ) -> Result<WatchBook, AllocError>
        ensures these { IfOk result
            (λ b. (doc : ℕ) → is_watched b.docs doc ≡ is_among docs.now doc) }
        ensures due { IfOk result (λ b. (doc : ℕ) → is_among b.due doc ≡ is_among docs.now doc) }
        ensures looked { IfOk result (λ b. b.looked ≡ looked) }
    {
        Ok(WatchBook {
            docs: Some(docs.iter().copied().collect(alloc)?),
            due: docs.iter().copied().collect(alloc)?,
            looked,
            goal: looked,
        })
    }

    /// Whether the session was told of all that is settled up to this length of the list. Constant.
    pub fn has_told(&self, settled: usize) -> bool
        ensures { IsTrue result ↔ ((settled ≤ self.now.looked) × (self.now.due ≡ [])) }
    {
        settled <= self.looked && self.due.is_empty()
    }

    /// How many operations, from the beginning of the list, were looked at. Constant.
    pub(crate) fn looked(&self) -> usize
        ensures { result ≡ self.now.looked }
    {
        self.looked
    }

    /// Whether the session is to be told of a document, or to look further. Constant.
    pub(crate) fn is_busy(&self) -> bool {
        self.looked < self.goal || !self.due.is_empty()
    }

    /// The next document of which the session is to be told: it isn't due any more. First it looks
    /// at the operations of this list that weren't looked at, but 4,096 at most: all of them are
    /// settled, and the documents of these are due, those that are watched. If more are left to
    /// look at in this round, none is given so far. An error is out of memory (1), and gives none.
    /// Three searches by halves for each operation.
    pub(crate) fn next_due(&mut self, settled: &RunSlice<'_>) -> Result<Option<u32>, AllocError>
        ensures watched { IfOk result (λ due. IfSome due
            (λ doc. is_watched self.old.docs doc ≡ true)) }
        ensures looks { IfOk result (λ due. LooksOn due self.old self.new settled.now) }
        ensures same { self.new.docs ≡ self.old.docs }
    {
        self.begin_round(settled.len());
        let end = self.goal.min(self.looked.saturating_add(LOOK));
        self.note_all(settled, end.min(settled.len()))?;
        if self.looked < self.goal {
            return Ok(None);
        }
        Ok(self.take_due())
    }

    /// Begins a round if nothing is left of the last one, if so many operations are settled.
    fn begin_round(&mut self, settled: usize)
        ensures { self.new ≡ self.old }
    {
        if !self.is_busy() {
            self.goal = settled;
        }
    }

    /// Looks at the operations of a list up to this length of it. An error is out of memory (1).
    fn note_all(&mut self, list: &RunSlice<'_>, end: usize) -> Result<(), AllocError>
        requires { end ≤ length list.now }
        ensures looks { OnOk result (LooksOn None self.old self.new list.now) }
        ensures same { self.new.docs ≡ self.old.docs }
    {
        for i in self.looked..end {
            self.note(list.head(i).doc)?;
        }
        self.looked = self.looked.max(end);
        Ok(())
    }

    /// Whether a document is watched. A search by halves.
    fn watches(&self, doc: u32) -> bool
        ensures { result ≡ is_watched self.now.docs doc }
    {
        match &self.docs {
            Some(docs) => docs.contains(&doc),
            None => true,
        }
    }

    /// Notes an operation of a document: that is due now, if it is watched. An error is out of
    /// memory (1). Two searches by halves.
    fn note(&mut self, doc: u32) -> Result<(), AllocError>
        ensures noted { OnOk result
            (is_watched self.old.docs doc ≡ true → is_among self.new.due doc ≡ true) }
        ensures others { (other : ℕ) → is_among self.old.due other ≡ true
            → is_among self.new.due other ≡ true }
        ensures same { (self.new.docs ≡ self.old.docs)
            × (self.new.looked ≡ self.old.looked) }
    {
        if self.watches(doc) {
            self.due.insert(doc)?;
        }
        Ok(())
    }

    /// A document of which the session is to be told, the one with the least number: it isn't due
    /// any more. Takes no memory. A search by halves.
    fn take_due(&mut self) -> Option<u32>
        ensures due { IfSome result (λ doc. is_among self.old.due doc ≡ true) }
        ensures watched { IfSome result (λ doc. is_watched self.old.docs doc ≡ true) }
        ensures others { (doc : ℕ) → is_among self.old.due doc ≡ true
            → (is_among self.new.due doc ≡ true) ⊎ (result ≡ Some doc) }
        ensures same { (self.new.docs ≡ self.old.docs)
            × (self.new.looked ≡ self.old.looked) }
    {
        self.due.pop_first()
    }
}
