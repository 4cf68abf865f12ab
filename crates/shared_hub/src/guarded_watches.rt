//! What one of several watched documents has come to, under the lock of a shared hub.
ghost use Rattle.std.specs.Prelude.{◌≡◌, ℕ, IfOk};
ghost use Rattle.hub_parts.specs.Locked.{IsLocked};
ghost use Rattle.shared_hub.specs.WatchingSeveral.{IfRevOf, IsToldOf, LooksOn, doc_told};
ghost use Rattle.shared_hub.specs.WatchingSeveral.{is_among, is_watched, settled_list};

use crate::guarded::Guarded;
use crate::watch_book::WatchBook;
use crate::watched_of::WatchedOf;
use pass_books::BookNames;
use std::alloc::{AllocError, Global};

impl<J: BookNames> Guarded<J> {
    /// What a session that watches these documents has of them: each is due, with what is settled
    /// by now. An error is out of memory (1).
    pub(crate) fn watch_these(&self, alloc: Global, docs: &[u32]) -> Result<WatchBook, AllocError>
        ensures these { IfOk result
            (λ b. (doc : ℕ) → is_watched b.docs doc ≡ is_among docs.now doc) }
        ensures due { IfOk result (λ b. (doc : ℕ) → is_among b.due doc ≡ is_among docs.now doc) }
        ensures looked { IfOk result (λ b. b.looked ≡ self.now.locked.replica.settled) }
    {
        WatchBook::of_these(alloc, docs, self.locked.settled())
    }

    /// How many operations, from the beginning of the list, are settled. Constant.
    pub(crate) fn settled(&self) -> usize
        ensures kept { IsLocked self.now.locked }
        ensures settled { result ≡ self.now.locked.replica.settled }
    {
        self.locked.kept();
        self.locked.settled()
    }

    /// Whether no more operations are settled than were looked at, and more may be yet. Constant.
    pub(crate) fn has_no_more(&self, looked: usize) -> bool {
        self.locked.settled() <= looked && !self.settles_no_more()
    }

    /// Whether nothing more is settled. Constant.
    fn settles_no_more(&self) -> bool {
        self.locked.is_failure_told() || self.turns.has_ended
    }

    /// What one of the documents of a session has come to, of which it is to be told. An error is
    /// out of memory (1). Looks at the operations that were settled since, 4,096 at most, as
    /// `WatchBook::next_due` does; and costs what `Locked::settled_rev` does.
    pub(crate) fn watched_of(&self, book: &mut WatchBook) -> Result<WatchedOf, AllocError>
        ensures kept { IsLocked self.now.locked }
        ensures told { IfOk result (λ w. IfRevOf w (IsToldOf book.old self.now.locked)) }
        ensures looks { IfOk result
            (λ w. LooksOn (doc_told w) book.old book.new (settled_list self.now.locked)) }
        ensures same { book.new.docs ≡ book.old.docs }
    {
        self.locked.kept();
        let settled = self.locked.list().front(self.locked.settled());
        match book.next_due(&settled)? {
            Some(doc) => {
                let rev = self.locked.settled_rev(doc) as u64;
                Ok(WatchedOf::Rev { doc, rev })
            }
            None if self.settles_no_more() && !book.is_busy() => Ok(WatchedOf::Failed),
            None => Ok(WatchedOf::Nothing),
        }
    }
}
