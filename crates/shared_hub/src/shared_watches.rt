//! How several documents of a shared hub are watched.
ghost use Rattle.std.specs.Prelude.{◌≡◌, ℕ, true, IfOk};
ghost use Rattle.shared_hub.specs.Shared.{Moment};
ghost use Rattle.shared_hub.specs.Watching.{settled_rev};
ghost use Rattle.shared_hub.specs.WatchingSeveral.{IfRevOf, LooksOn, doc_told};
ghost use Rattle.shared_hub.specs.WatchingSeveral.{is_among, is_watched, settled_list};

use crate::shared::Shared;
use crate::watch_book::WatchBook;
use crate::watched_of::WatchedOf;
use pass_books::BookNames;
use std::alloc::{AllocError, Global};
use std::rt::Clock;
use std::sync::Wait;
use std::time::Duration;

impl<J: BookNames> Shared<J> {
    /// What a session that begins to watch these documents is to be told of: each of them. An error
    /// is out of memory (1).
    pub fn watch_these<R: Wait>(
        &self,
        rt: &R,
        alloc: Global,
        docs: &[u32],
    ) -> Result<WatchBook, AllocError>
        ensures these { IfOk result
            (λ b. (doc : ℕ) → is_watched b.docs doc ≡ is_among docs.now doc) }
        ensures due { IfOk result (λ b. (doc : ℕ) → is_among b.due doc ≡ is_among docs.now doc) }
    {
        self.guarded.lock(rt).watch_these(alloc, docs)
    }

    /// How many operations, from the beginning of the list, are settled. Takes no memory. Constant.
    pub fn settled<R: Wait>(&self, rt: &R) -> usize
        ensures { Moment (λ l. result ≡ l.replica.settled) }
    {
        self.guarded.lock(rt).settled()
    }

    /// Waits until one of the documents of a session has more settled operations than were looked
    /// at, and gives how many it has; at once for one that is due. Waits for so long at most, and
    /// no longer once the device failed or the flusher has ended. An error is out of memory (1). It
    /// looks at the operations that were settled since, 4,096 at most while it has the lock: if
    /// there are more, nothing is found so far, and the next call looks on. So a settlement costs
    /// what it has of operations, and `Locked::settled_rev` for each document that it changed.
    pub fn watch_several<R: Wait + Clock>(
        &self,
        rt: &R,
        book: &mut WatchBook,
        patience: Duration,
    ) -> Result<WatchedOf, AllocError>
        ensures watched { IfOk result
            (λ w. IfRevOf w (λ doc n. is_watched book.old.docs doc ≡ true)) }
        ensures rev { IfOk result
            (λ w. IfRevOf w (λ doc n. Moment (λ l. n ≡ settled_rev l doc))) }
        ensures looks { IfOk result
            (λ w. Moment (λ l. LooksOn (doc_told w) book.old book.new (settled_list l))) }
        ensures same { book.new.docs ≡ book.old.docs }
    {
        let guard = self.guarded.lock(rt);
        let is_busy = book.is_busy();
        let looked = book.looked();
        let (guard, _) = self
            .watchers
            .wait_timeout_while(rt, guard, patience, |held| {
                !is_busy && held.has_no_more(looked)
            });
        guard.watched_of(book)
    }
}
