//! A hub that threads share.
ghost use Rattle.std.specs.Prelude.{◌≡◌, ◌≢◌, ◌⊎◌, None, Err, IfOk, IfErr, OnErr, nat_lt};
ghost use Rattle.fixed_numbers.specs.declared.refusals.TheConstants.{MEMORY};
ghost use Rattle.op_model.specs.Machine.{edit as edit_event, known_ticket, merge as merge_event};
ghost use Rattle.op_model.specs.Machine.{tell as tell_event, have as have_event};
ghost use Rattle.op_model.specs.Machine.{ticket, operations, clock as clock_answer};
ghost use Rattle.shared_hub.specs.Guarded.{after_ticket, Merges};
ghost use Rattle.shared_hub.specs.Refusal.{merged, number_of, told_at};
ghost use Rattle.shared_hub.specs.Shared.{asked_then, EntersAsked, IsWithoutMemory, RefusesAsked};
ghost use Rattle.shared_hub.specs.Shared.{EntersTo, HappensTo, MomentOf, MeetsOnce, Moment, RefusesEdit};
ghost use Rattle.shared_hub.specs.declared.refusal.SharedRefusal.TheVariants.{Stopping};
ghost use Rattle.op_ids.specs.Clock.{count_of};
ghost use Rattle.op_model.specs.Causality.{clock_of};

use crate::awaited::Parity;
use crate::committer::Committer;
use crate::connected::Connected;
use crate::guarded::Guarded;
use crate::passes::Pass;
use crate::refusal::SharedRefusal;
use crate::rooms::Rooms;
use disk_trait::Disk;
use group_commit::StoreError;
use hub_parts::Met;
use op_ids::Clock;
use op_model::{Action, Op};
use pass_books::BookNames;
use placed_edits::PlacedAction;
use replica_core::{Merged, Ticket};
use std::alloc::Global;
use std::sync::{Condvar, Mutex, Wait};

/// A hub that threads share: its locked part stands under one lock, with the books of the passes.
/// Each call holds the lock once, or once for each time that it looks whether its wait is over; no
/// call makes a device call. A call that takes the lock may wait.
#[derive(Drop)]
pub struct Shared<J: BookNames> {
    pub(crate) guarded: Mutex<Guarded<J>>,
    /// Those who wait for the settlement of a commit with an even number, and with an odd one.
    even: Condvar,
    odd: Condvar,
    /// The flusher, where it sleeps.
    pub(crate) work: Condvar,
    /// The threads that tell.
    pub(crate) news: Rooms,
    /// Those who watch a document.
    pub(crate) watchers: Condvar,
    /// Who is connected, under a lock of its own. Whoever takes both takes the hub's first.
    pub(crate) connected: Mutex<Connected>,
}

impl<J: BookNames> Shared<J> {
    pub(crate) fn new(guarded: Guarded<J>) -> Shared<J> {
        Shared {
            guarded: Mutex::new(guarded),
            even: Condvar::new(),
            odd: Condvar::new(),
            work: Condvar::new(),
            news: Rooms::new(),
            watchers: Condvar::new(),
            connected: Mutex::new(Connected::new()),
        }
    }

    /// What the lock held, once nobody shares it.
    pub fn end(self) -> Guarded<J> {
        let Shared { guarded, .. } = self;
        guarded.into_inner()
    }

    /// Makes an edit, as a step of the pass's number. An edit that was made before, under its
    /// token, has the ticket that it had then, and is no step. Refuses another one with 12 after
    /// `stop`, else as `Locked::edit` does (9, 6, 5, 7, 10, 8, 1), which then changes nothing.
    /// Wakes the flusher if it sleeps and waits for no further edit. Costs what `Locked::edit`
    /// does.
    pub fn edit<R: Wait>(
        &self,
        rt: &R,
        pass: &mut Pass<J>,
        edit: &Action,
    ) -> Result<Ticket, SharedRefusal>
        // The pass has one entry more if the edit is new: the ticket's end.
        ensures entered { IfOk result (λ t. EntersTo pass.old (after_ticket t pass.old) pass.new
            (edit_event pass.old.number edit.now) (ticket t)) }
        ensures same { OnErr result (pass.new ≡ pass.old) }
        ensures stopping { result ≡ Err Stopping → MomentOf pass.old
            (λ l. known_ticket l.replica edit.now ≡ None) }
        // A refusal with 5 or 7 of several changes names the first of them that is refused.
        ensures refused { IfErr result (λ e. e ≢ Stopping
            → RefusesEdit pass.old edit.now (number_of e) (told_at e)) }
    {
        let mut guard = self.guarded.lock(rt);
        let result = guard.edit(pass, edit);
        let is_due = guard.wakes_flusher();
        drop(guard);
        self.wake_flusher(is_due);
        result
    }

    /// Makes an edit at places that last: under one holding of the lock they are looked up, and the
    /// numbers that they have are made as `edit` makes them, so nothing comes between. An edit that
    /// was made before has its ticket of then. Refuses another one with 12 after `stop`, then with
    /// 1 if there is no memory for the numbers, then as `edit` does. Costs what `Locked::asked` and
    /// `edit` do; an edit by numbers alone costs `edit`, and a step for each of its changes.
    pub fn edit_placed<R: Wait>(
        &self,
        rt: &R,
        alloc: Global,
        pass: &mut Pass<J>,
        placed: &PlacedAction,
    ) -> Result<Ticket, SharedRefusal>
        ensures entered { IfOk result (λ t. EntersAsked (asked_then placed.now) pass.old
            (after_ticket t pass.old) pass.new t) }
        ensures same { OnErr result (pass.new ≡ pass.old) }
        ensures stopping { result ≡ Err Stopping → MomentOf pass.old
            (λ l. known_ticket l.replica placed.now.asked ≡ None) }
        ensures refused { IfErr result (λ e. e ≢ Stopping
            → RefusesAsked (asked_then placed.now) pass.old (number_of e) (told_at e)
            ⊎ IsWithoutMemory pass.old placed.now e) }
    {
        let mut guard = self.guarded.lock(rt);
        let result = guard.edit_placed(alloc, pass, placed);
        let is_due = guard.wakes_flusher();
        drop(guard);
        self.wake_flusher(is_due);
        result
    }

    /// Merges a peer's operation, as a step of the pass's number. Refuses with 12 behind `stop`,
    /// else as `Locked::merge` does (9, 20 to 24, 10, 8, 1), which then changes nothing. Wakes the
    /// flusher where it sleeps and waits for no edit. Costs what `Locked::merge` does.
    pub fn merge<R: Wait>(
        &self,
        rt: &R,
        pass: &mut Pass<J>,
        op: Op,
    ) -> Result<Merged, SharedRefusal>
        // The pass has one entry more exactly where the operation was applied: the new length.
        ensures pass { Merges result pass.old pass.new }
        ensures call { result ≢ Err Stopping → HappensTo pass.old pass.new
            (merge_event pass.old.number op) (merged result) }
    {
        let mut guard = self.guarded.lock(rt);
        let result = guard.merge(pass, op);
        let is_due = guard.wakes_flusher();
        drop(guard);
        self.wake_flusher(is_due);
        result
    }

    /// Where those wait who wait for a commit of this parity.
    pub(crate) fn room(&self, parity: Parity) -> &Condvar {
        match parity {
            Parity::Even => &self.even,
            Parity::Odd => &self.odd,
        }
    }

    /// Wakes all who wait for a settlement, and those who watch a document.
    pub(crate) fn wake_waiting(&self) {
        self.even.notify_all();
        self.odd.notify_all();
        self.watchers.notify_all();
    }

    /// Wakes the flusher, where that is due.
    pub(crate) fn wake_flusher(&self, is_due: bool) {
        if is_due {
            self.work.notify_one();
        }
    }
}

// Tellings, and the meetings with the flusher.
impl<J: BookNames> Shared<J> {
    /// The first settled operations, at most 64 in the order of the list, that a clock doesn't
    /// count. They count as told. An error is out of memory (1). Costs what `Locked::tell` does.
    pub fn tell<R: Wait>(
        &self,
        rt: &R,
        pass: &mut Pass<J>,
        clock: &Clock,
    ) -> Result<Vec<Op>, SharedRefusal>
        ensures entered { IfOk result (λ ops. EntersTo pass.old pass.old pass.new
            (tell_event clock.now) (operations ops.items)) }
        ensures same { OnErr result (pass.new ≡ pass.old) }
        ensures refused { IfErr result (λ e. number_of e ≡ MEMORY) }
    {
        self.guarded.lock(rt).tell(pass, clock)
    }

    /// How many operations of each replica are settled. All settled ones count as told. An error is
    /// out of memory (1). Costs what `Locked::have` does.
    pub fn have<R: Wait>(&self, rt: &R, pass: &mut Pass<J>) -> Result<Clock, SharedRefusal>
        ensures entered { IfOk result (λ c. EntersTo pass.old pass.old pass.new
            have_event (clock_answer c)) }
        ensures same { OnErr result (pass.new ≡ pass.old) }
        ensures refused { IfErr result (λ e. number_of e ≡ MEMORY) }
    {
        self.guarded.lock(rt).have(pass)
    }

    /// The flusher meets what stands under the lock, once, where no commit is under way: one of all
    /// that waits is tried. Refuses as `Flusher::meet` does (44, 8, 7, 1).
    pub(crate) fn begin<R: Wait, D: Disk>(
        &self,
        rt: &R,
        committer: &mut Committer<J, D>,
    ) -> Result<Met, StoreError>
        ensures { MeetsOnce D.DiskFacts committer.old.flusher result committer.new.flusher }
    {
        let mut guard = self.guarded.lock(rt);
        guard.note_try();
        let result = guard.meet(committer);
        if let Ok(Met::Begun(_)) = result {
            guard.count_commit();
        }
        drop(guard);
        // A flusher whose commit was through has settled it.
        if matches!(result, Ok(Met::Settled(_))) {
            self.wake_waiting();
            self.news.wake_all();
        }
        result
    }

    /// The flusher meets what stands under the lock, once, where the device calls of its commit are
    /// all made: that is settled. Wakes those who wait for it, those who watch a document, and the
    /// threads that tell. An error tells that the device has failed (44).
    pub(crate) fn settle<R: Wait, D: Disk>(
        &self,
        rt: &R,
        committer: &mut Committer<J, D>,
    ) -> Result<Met, StoreError>
        ensures { MeetsOnce D.DiskFacts committer.old.flusher result committer.new.flusher }
    {
        let mut held = self.guarded.lock(rt);
        let settled = held.parity(0);
        let result = held.meet(committer);
        held.count_group();
        drop(held);
        if result.is_ok() {
            self.room(settled).notify_all();
            self.watchers.notify_all();
        } else {
            self.wake_waiting();
        }
        self.news.wake_all();
        result
    }
}

// Whether links go on.
impl<J: BookNames> Shared<J> {
    /// Refuses all further edits and merges with 12, if a peer counts more operations of this
    /// replica than the list has, and answers whether it does: the file was put back from an older
    /// copy. All links are over then, too. Takes no memory; a search in the clock.
    pub fn stop_if_put_back<R: Wait>(&self, rt: &R, counted: u64) -> bool
        ensures { Moment (λ l. result
            ≡ nat_lt (count_of (clock_of l.replica.list) l.replica.replica) counted) }
    {
        let mut guard = self.guarded.lock(rt);
        let was_put_back = guard.stop_if_put_back(counted);
        let is_due = guard.wakes_flusher();
        drop(guard);
        self.wake_flusher(is_due);
        if was_put_back {
            self.news.wake_all();
        }
        was_put_back
    }

    /// Whether no link is of use any more before the file is opened again: a meeting has told a
    /// failure of the device, or the file was put back from an older copy.
    pub fn are_links_over<R: Wait>(&self, rt: &R) -> bool {
        self.guarded.lock(rt).are_links_over()
    }
}
