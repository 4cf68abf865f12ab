//! Edits and merges of the locked part.
ghost use Rattle.std.specs.Prelude.{◌≡◌, IfOk, OnErr};
ghost use Rattle.op_model.specs.Machine.{after_edit, has_record_room, EditStep, MergeStep};
ghost use Rattle.replica_core.specs.Merging.{after_merge};
ghost use Rattle.hub_parts.specs.Locked.{state_of};
ghost use Rattle.hub_parts.specs.Fitting.{FitTogether, Side};
ghost use Rattle.hub_parts.specs.Refusal.{edited, merged};

use crate::locked::Locked;
use crate::refusal::LockedRefusal;
use fixed_numbers::limits::MAX_PENDING;
use op_model::{Action, Op};
use replica_core::{Merged, Ticket};

impl Locked {
    /// Makes the operations of a session's edit and puts them behind the list; they aren't settled
    /// yet. An edit that was made before, under its token, has the ticket that it had then, and
    /// changes nothing. Refuses another one, in this order, with 9 where a meeting has told a
    /// failure of the device, as `Replica::edit` does (6, 5, 7, 10), with 8 where the records have
    /// no room behind those that wait for a commit (1,048,576 bytes), and with 1 when out of
    /// memory. A refused edit changes nothing. Costs what `Replica::edit` does, and a copy of the
    /// records of what it makes.
    pub fn edit(&mut self, session: u64, edit: &Action) -> Result<Ticket, LockedRefusal>
        ensures call { EditStep (state_of self.old) session edit.now (edited result)
            (state_of self.new) }
        ensures made { IfOk result (λ t. self.new
            ≡ record self.old { replica = after_edit t self.old.replica session edit.now }) }
        ensures same { OnErr result (self.new ≡ self.old) }
        ensures fits { (side : Side) → FitTogether self.old side → FitTogether self.new side }
    {
        if let Some(ticket) = self.replica.known(edit) {
            return Ok(ticket);
        }
        if self.failure_told {
            return Err(LockedRefusal::Failed);
        }
        let decided = match self.replica.decide_edit(edit) {
            Ok(decided) => decided,
            Err(refusal) => return Err(LockedRefusal::Replica(refusal)),
        };
        if !self.has_record_room(decided.bytes) {
            return Err(LockedRefusal::Full);
        }
        match self.put_edit(session, edit, decided) {
            Ok(ticket) => Ok(ticket),
            Err(refusal) => Err(LockedRefusal::Replica(refusal)),
        }
    }

    /// Puts a peer's operation behind the list, or says that it is there already or comes early.
    /// Refuses, in this order, with 9 where a meeting has told a failure of the device, as
    /// `Replica::merge` does (20 to 24, 10), with 8 where the record has no room behind those that
    /// wait for a commit (1,048,576 bytes), and with 1 when out of memory. A refused merge changes
    /// nothing. Costs what `Replica::merge` does.
    pub fn merge(&mut self, peer: u64, op: Op) -> Result<Merged, LockedRefusal>
        ensures call { MergeStep (state_of self.old) peer op (merged result)
            (state_of self.new) }
        ensures made { IfOk result (λ m. self.new
            ≡ record self.old { replica = after_merge m self.old.replica peer op }) }
        ensures same { OnErr result (self.new ≡ self.old) }
        ensures fits { (side : Side) → FitTogether self.old side → FitTogether self.new side }
    {
        if self.failure_told {
            return Err(LockedRefusal::Failed);
        }
        match self.replica.decide_merge(&op) {
            Ok(Merged::Applied) => {}
            Ok(Merged::Known) => return Ok(Merged::Known),
            Ok(Merged::Early) => return Ok(Merged::Early),
            Err(refusal) => return Err(LockedRefusal::Replica(refusal)),
        }
        if !self.has_record_room(op.record_length()) {
            return Err(LockedRefusal::Full);
        }
        match self.put_merge(peer, op) {
            Ok(()) => Ok(Merged::Applied),
            Err(refusal) => Err(LockedRefusal::Replica(refusal)),
        }
    }

    /// Whether records of `more` bytes have room behind those that wait for the next commit.
    fn has_record_room(&self, more: u64) -> bool
        ensures { result ≡ has_record_room (state_of self.now) more }
    {
        let pending = self.waiting.len() as u64;
        more <= MAX_PENDING && pending <= MAX_PENDING - more
    }
}
