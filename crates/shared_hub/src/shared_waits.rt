//! What threads of a shared hub wait for.
ghost use Rattle.std.specs.Prelude.{◌≡◌, ◌≤◌, ◌<◌, IsTrue, true, false, length};
ghost use Rattle.op_model.specs.Machine.{ack as ack_event, acknowledged};
ghost use Rattle.shared_hub.specs.Shared.{EntersTo, Moment, MomentOf};
ghost use Rattle.shared_hub.specs.Watching.{HasSeen, IfRev, IsNewer, UnlessRev, settled_rev};

use crate::awaited::Awaited;
use crate::guarded::Guarded;
use crate::news::News;
use crate::passes::Pass;
use crate::shared::Shared;
use crate::watched::Watched;
use hub_parts::BEGIN_TRIES;
use pass_books::BookNames;
use replica_core::Ticket;
use std::rt::Clock;
use std::sync::{MutexGuard, Wait};
use std::time::Duration;

/// How many milliseconds after it was given up a commit is tried anew: there may be memory again,
/// and a peer that waits for it to be settled tells nothing else.
const ANEW: u64 = 2_000;

impl<J: BookNames> Shared<J> {
    /// Waits until the operations of a ticket are settled, and acknowledges them; else the device
    /// failed, no commit could begin, or the flusher has ended (9). Those that are settled it
    /// acknowledges whatever has failed. Wakes for the settlement of its commit alone.
    pub fn acknowledge<R: Wait>(&self, rt: &R, pass: &mut Pass<J>, ticket: Ticket) -> bool
        ensures entered { IsTrue result → EntersTo pass.old pass.old pass.new
            (ack_event ticket) (acknowledged true) }
        ensures same { result ≡ false → pass.new ≡ pass.old }
        ensures unsettled { result ≡ false
            → MomentOf pass.old (λ l. l.replica.settled < ticket.end) }
    {
        let mut guard = self.guarded.lock(rt);
        for _ in rt.forever() {
            match guard.try_ack(pass, ticket) {
                Awaited::Settled => return true,
                Awaited::Lost => return false,
                Awaited::Pending(parity) => guard = self.room(parity).wait(rt, guard),
            }
        }
        unreachable!()
    }

    /// Refuses all further edits and merges with 12, and waits until all operations are settled;
    /// else the device failed, no commit could begin, or the flusher has ended (9).
    pub fn stop<R: Wait>(&self, rt: &R) -> bool
        ensures { IsTrue result
            → Moment (λ l. length l.replica.list ≤ l.replica.settled) }
    {
        let mut guard = self.guarded.lock(rt);
        guard.stop();
        self.wake_flusher(guard.wakes_flusher());
        for _ in rt.forever() {
            match guard.all_settled() {
                Awaited::Settled => return true,
                Awaited::Lost => return false,
                Awaited::Pending(parity) => guard = self.room(parity).wait(rt, guard),
            }
        }
        unreachable!()
    }

    /// Waits until there is something for the link of this number that wasn't seen, and gives what
    /// is to be seen then. Wakes for what is settled, for the end, and for a call of its own.
    pub fn wait_for_news<R: Wait>(&self, rt: &R, link: usize, seen: News) -> News {
        let mut guard = self.guarded.lock(rt);
        for _ in rt.forever() {
            let news = guard.news(link);
            if news != seen {
                return news;
            }
            guard = self.news.of(link).wait(rt, guard);
        }
        unreachable!()
    }

    /// Wakes the thread that tells over the link of this number.
    pub fn call<R: Wait>(&self, rt: &R, link: usize) {
        self.guarded.lock(rt).call(link);
        self.news.of(link).notify_all();
    }

    /// Asks the flusher and the threads that tell to end. The flusher first commits what waits.
    pub fn close<R: Wait>(&self, rt: &R) {
        self.guarded.lock(rt).close();
        self.wake_waiting();
        self.work.notify_all();
        self.news.wake_all();
    }

    /// Waits until operations wait for a commit, and gives how often that is to be tried, once
    /// where it was given up before; `None` where the threads were asked to end. Before that it
    /// waits, for so long at most, for the next edits of those who were answered last, so that one
    /// commit serves them all.
    pub(crate) fn wait_for_work<R: Wait + Clock>(&self, rt: &R, patience: Duration) -> Option<u32> {
        let mut guard = self.gather(rt, patience);
        let mut tries = BEGIN_TRIES;
        for _ in rt.forever() {
            if guard.has_work() {
                guard.note_try();
                return Some(tries);
            }
            if guard.is_closing() {
                return None;
            }
            (guard, tries) = self.sleep(rt, guard);
        }
        unreachable!()
    }

    /// Has the flusher sleep until it is woken; if a commit was given up, no longer than until that
    /// is to be tried anew. Gives what stands under the lock then, and how often the next commit is
    /// to be tried.
    fn sleep<'a, R: Wait + Clock>(
        &'a self,
        rt: &R,
        guard: MutexGuard<'a, Guarded<J>>,
    ) -> (MutexGuard<'a, Guarded<J>>, u32) {
        let mut guard = guard;
        guard.sleep_flusher();
        if !guard.has_given_up() {
            return (self.work.wait(rt, guard), BEGIN_TRIES);
        }
        let time = Duration::from_millis(ANEW);
        let (mut woken, _) = self.work.wait_timeout(rt, guard, time);
        let tries = woken.try_anew();
        (woken, tries)
    }

    /// Waits until no edit is missing of those who are at work, for so long at most, where their
    /// turns take no longer; it may end sooner. Gives what stands under the lock then.
    fn gather<R: Wait + Clock>(&self, rt: &R, patience: Duration) -> MutexGuard<'_, Guarded<J>> {
        let mut guard = self.guarded.lock(rt);
        if guard.awaits_edits(patience) {
            guard.sleep_flusher();
            let (woken, _) = self.work.wait_timeout(rt, guard, patience);
            guard = woken;
        }
        guard.end_gathering();
        guard
    }

    /// Gives up the commit that was tried last, and tells those who wait for it.
    pub(crate) fn give_up<R: Wait>(&self, rt: &R) {
        self.guarded.lock(rt).give_up();
        self.wake_waiting();
    }

    /// Tells those who wait for a settlement that none comes any more.
    pub(crate) fn end_flushing<R: Wait>(&self, rt: &R) {
        self.guarded.lock(rt).end_flushing();
        self.wake_waiting();
    }
}

// How a document is watched.
impl<J: BookNames> Shared<J> {
    /// Waits until a document has more settled operations than were seen, and gives how many it
    /// has; at once for one who hasn't seen it (`None`). Waits for so long at most, and no longer
    /// once the device failed or the flusher has ended. Takes no memory. It looks at the
    /// beginning, after each settlement and each commit that was given up, and at the end; each
    /// look costs what `Locked::settled_rev` does.
    pub fn watch<R: Wait + Clock>(
        &self,
        rt: &R,
        doc: u32,
        seen: Option<u64>,
        patience: Duration,
    ) -> Watched
        ensures rev { IfRev result (λ n. Moment (λ l. n ≡ settled_rev l doc)) }
        ensures newer { IfRev result (λ n. IsNewer seen n) }
        // Also after a failure, what is settled was seen.
        ensures nothing { UnlessRev result (Moment (λ l. HasSeen seen (settled_rev l doc))) }
    {
        let guard = self.guarded.lock(rt);
        let (guard, _) = self
            .watchers
            .wait_timeout_while(rt, guard, patience, |held| {
                held.watched(doc, seen) == Watched::Nothing
            });
        guard.watched(doc, seen)
    }
}
