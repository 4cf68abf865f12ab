//! What a thread under the lock of a shared hub waits for.
ghost use Rattle.std.specs.Prelude.{◌≡◌, ◌≢◌, ◌≤◌, ◌<◌, true, length, ◌||◌, nat_lt};
ghost use Rattle.op_model.specs.Machine.{ack as ack_event, acknowledged};
ghost use Rattle.shared_hub.specs.Guarded.{IsMine};
ghost use Rattle.shared_hub.specs.Shared.{EntersTo, Moment};
ghost use Rattle.shared_hub.specs.declared.awaited.Awaited.TheVariants.{Settled};
ghost use Rattle.op_ids.specs.Clock.{count_of};
ghost use Rattle.op_model.specs.Causality.{clock_of};

use crate::awaited::{Awaited, Parity};
use crate::guarded::Guarded;
use crate::news::News;
use crate::passes::Pass;
use crate::rooms::ROOMS;
use hub_parts::BEGIN_TRIES;
use pass_books::BookNames;
use replica_core::Ticket;
use std::time::Duration;

/// About how many microseconds an edit's turn takes: the answer to the one before, what its session
/// makes of that, and the edit itself.
const TURN: u64 = 20;

impl<J: BookNames> Guarded<J> {
    /// Acknowledges a ticket if its operations are settled, also after a failure, and enters this
    /// moment; else says whether to wait for that.
    pub(crate) fn try_ack(&mut self, pass: &mut Pass<J>, ticket: Ticket) -> Awaited
        ensures mine { IsMine self.old.locked pass.old }
        ensures unsettled { result ≢ Settled → self.old.locked.replica.settled < ticket.end }
        ensures entered { result ≡ Settled → EntersTo pass.old pass.old pass.new
            (ack_event ticket) (acknowledged true) }
        ensures same { result ≢ Settled → pass.new ≡ pass.old }
    {
        let is_acknowledged = self.ack(pass, ticket);
        if is_acknowledged {
            return Awaited::Settled;
        }
        self.without_settlement(ticket.end)
    }

    /// Whether all operations are settled; else whether to wait for that.
    pub(crate) fn all_settled(&self) -> Awaited
        ensures { result ≡ Settled
            → Moment (λ l. length l.replica.list ≤ l.replica.settled) }
    {
        self.locked.kept();
        let length = self.locked.list().len();
        if length <= self.locked.settled() {
            return Awaited::Settled;
        }
        self.without_settlement(length)
    }

    /// What a thread does that waits for the settlement of the list up to this length.
    fn without_settlement(&self, end: usize) -> Awaited
        ensures { result ≢ Settled }
    {
        if self.locked.is_failure_told() || self.turns.has_ended || self.is_given_up(end) {
            Awaited::Lost
        } else {
            Awaited::Pending(self.parity_for(end))
        }
    }

    /// The parity of the commit that settles the list up to this length: the last one that began
    /// has it, or the next one will.
    fn parity_for(&self, end: usize) -> Parity {
        if end <= self.locked.begun() {
            self.parity(0)
        } else {
            self.parity(1)
        }
    }

    /// The parity of the commit that begins `later` commits behind the last one.
    pub(crate) fn parity(&self, later: u64) -> Parity {
        if self.turns.commits.wrapping_add(later) % 2 == 0 {
            Parity::Even
        } else {
            Parity::Odd
        }
    }

    /// Whether the commit of the list up to this length was given up, and no later one has it.
    fn is_given_up(&self, end: usize) -> bool {
        end <= self.turns.given_up && self.locked.begun() < end
    }

    /// Takes no more edits. What waits is tried anew, also where that was given up.
    pub(crate) fn stop(&mut self)
        ensures { self.new ≡ record self.old { stopping = true } }
    {
        self.is_stopping = true;
        self.turns.tried = 0;
        self.turns.given_up = 0;
    }

    /// Whether operations wait for a commit that can begin.
    pub(crate) fn has_work(&self) -> bool {
        let length = self.locked.list().len();
        !self.locked.is_failure_told()
            && self.locked.begun() < length
            && self.turns.given_up < length
    }

    /// Whether operations wait for a commit that was given up.
    pub(crate) fn has_given_up(&self) -> bool {
        let length = self.locked.list().len();
        !self.locked.is_failure_told()
            && self.locked.begun() < length
            && length <= self.turns.given_up
    }

    /// Has a commit that was given up tried anew, once: each try may cost as much as a commit.
    /// Gives how often the next commit is to be tried.
    pub(crate) fn try_anew(&mut self) -> u32
        ensures { self.new ≡ self.old }
    {
        if !self.has_given_up() {
            return BEGIN_TRIES;
        }
        self.turns.given_up = 0;
        1
    }

    /// Whether fewer edits have come than the flusher waits for. Behind a stop and a close it waits
    /// for none.
    pub(crate) fn lacks_edits(&self) -> bool {
        self.turns.edits < self.turns.group && !self.is_stopping && !self.turns.is_closing
    }

    /// Whether the flusher waits for edits behind a commit that took so long: fewer have come than
    /// it waits for, and the turns of those take no longer than that commit. Where they do, they go
    /// on beside the device calls of the next commit.
    pub(crate) fn awaits_edits(&self, took: Duration) -> bool {
        let turns = Duration::from_micros(TURN.saturating_mul(self.turns.group));
        self.lacks_edits() && turns <= took
    }

    /// Marks that the flusher waits for no edits any more, and no longer sleeps.
    pub(crate) fn end_gathering(&mut self)
        ensures { self.new ≡ self.old }
    {
        self.turns.group = 0;
        self.turns.flusher_sleeps = false;
    }

    /// Whether the flusher sleeps, and has work and lacks no edits: whoever asks is to wake it.
    pub(crate) fn wakes_flusher(&mut self) -> bool
        ensures { self.new ≡ self.old }
    {
        let wakes = self.turns.flusher_sleeps && self.has_work() && !self.lacks_edits();
        if wakes {
            self.turns.flusher_sleeps = false;
        }
        wakes
    }

    /// Marks that the flusher sleeps.
    pub(crate) fn sleep_flusher(&mut self)
        ensures { self.new ≡ self.old }
    {
        self.turns.flusher_sleeps = true;
    }

    /// Marks that a commit of what waits now is tried.
    pub(crate) fn note_try(&mut self)
        ensures { self.new ≡ self.old }
    {
        self.turns.tried = self.locked.list().len();
    }

    /// Counts a commit that has begun, and the edits that it has.
    pub(crate) fn count_commit(&mut self)
        ensures { self.new ≡ self.old }
    {
        self.turns.commits = self.turns.commits.wrapping_add(1);
        self.turns.group = self.turns.edits;
        self.turns.edits = 0;
    }

    /// Adds to those that a commit had the edits that have come when it is settled.
    pub(crate) fn count_group(&mut self)
        ensures { self.new ≡ self.old }
    {
        self.turns.group = self.turns.group.wrapping_add(self.turns.edits);
    }

    /// Gives up the commit that was tried last, until another operation comes: one that came behind
    /// that try, or comes yet; or until it is tried anew.
    pub(crate) fn give_up(&mut self)
        ensures { self.new ≡ self.old }
    {
        self.turns.given_up = self.turns.tried;
    }

    /// Marks that the flusher has ended: nothing more is settled.
    pub(crate) fn end_flushing(&mut self)
        ensures { self.new ≡ self.old }
    {
        self.turns.has_ended = true;
    }

    /// What is to be seen by the thread that tells over the link of this number.
    pub(crate) fn news(&self, link: usize) -> News {
        News {
            settled: self.locked.settled(),
            calls: self.turns.calls[link % ROOMS],
            is_closing: self.turns.is_closing || self.are_links_over(),
        }
    }

    /// Calls the thread that tells over the link of this number.
    pub(crate) fn call(&mut self, link: usize)
        ensures { self.new ≡ self.old }
    {
        let calls = &mut self.turns.calls[link % ROOMS];
        *calls = calls.wrapping_add(1);
    }

    /// Whether the threads were asked to end.
    pub(crate) fn is_closing(&self) -> bool {
        self.turns.is_closing
    }

    /// Asks the threads to end.
    pub(crate) fn close(&mut self)
        ensures { self.new ≡ self.old }
    {
        self.turns.is_closing = true;
    }
}

// Whether links go on.
impl<J: BookNames> Guarded<J> {
    /// Takes no more edits, as after a stop, if a peer counts more operations of this replica than
    /// the list has, and answers whether it does: the file was put back from an older copy, and an
    /// edit would give a name again that the peer has seen. The links are over then, too.
    pub(crate) fn stop_if_put_back(&mut self, counted: u64) -> bool
        ensures moment { Moment (λ l. result
            ≡ nat_lt (count_of (clock_of l.replica.list) l.replica.replica) counted) }
        ensures stops { self.new ≡ record self.old {
          stopping = self.old.stopping || result;
        } }
    {
        self.locked.kept();
        let has_fewer = self.locked.clock().get(self.locked.replica()) < counted;
        if has_fewer {
            self.stop();
            self.turns.was_put_back = true;
        }
        has_fewer
    }

    /// Whether no link is of use any more: the device failed, or the file was put back. Neither is
    /// mended before the file is opened again.
    pub(crate) fn are_links_over(&self) -> bool {
        self.locked.is_failure_told() || self.turns.was_put_back
    }
}
