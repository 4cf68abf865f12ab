//! The calls of a hub that its replica answers.
ghost use Rattle.std.specs.Prelude.{IfErr};
ghost use Rattle.op_model.specs.Machine.{edit as edit_event, merge as merge_event};
ghost use Rattle.op_model.specs.Machine.{ack as ack_event, tell as tell_event, have as have_event};
ghost use Rattle.op_model.specs.Machine.{acknowledged};
ghost use Rattle.locked_replica.specs.Calls.{IsCall};
ghost use Rattle.locked_replica.specs.Steps.{edited, merge_answered, told, had, IsNotOfStore};

use crate::hub::Hub;
use crate::refusal::HubRefusal;
use disk_trait::Disk;
use op_ids::Clock;
use op_model::{Action, Op};
use replica_core::{Merged, Ticket};

impl<D: Disk> Hub<D> {
    /// Makes the operations of a session's edit and puts them behind the list; they aren't settled
    /// yet. An edit that was made before, under its token, has the ticket that it had then, and
    /// changes nothing. Refuses another one, in this order, with 9 where a refused `begin` or
    /// `settle` has told that the device failed, as `Replica::edit` does (6, 5, 7, 10), with 8
    /// where the records have no room behind those that wait for a commit (1,048,576 bytes), and
    /// with 1 when out of memory. A refused edit changes nothing. Costs what `Replica::edit` does.
    pub fn edit(&mut self, session: u64, edit: &Action) -> Result<Ticket, HubRefusal>
        ensures call { IsCall D.DiskFacts (edit_event session edit.now) (edited result)
            self.old self.new }
        ensures kind { IfErr result IsNotOfStore }
    {
        self.locked.kept();
        self.flusher.kept();
        let answer = self.locked.edit(session, edit);
        self.locked.kept();
        match answer {
            Ok(ticket) => Ok(ticket),
            Err(refusal) => Err(HubRefusal::of(refusal)),
        }
    }

    /// Puts a peer's operation behind the list, or says that it is there already or comes early.
    /// Refuses, in this order, with 9 where a refused `begin` or `settle` has told that the device
    /// failed, as `Replica::merge` does (20 to 24, 10), with 8 where the record has no room behind
    /// those that wait for a commit (1,048,576 bytes), and with 1 when out of memory. A refused
    /// merge changes nothing. Costs what `Replica::merge` does.
    pub fn merge(&mut self, peer: u64, op: Op) -> Result<Merged, HubRefusal>
        ensures call { IsCall D.DiskFacts (merge_event peer op) (merge_answered result)
            self.old self.new }
        ensures kind { IfErr result IsNotOfStore }
    {
        self.locked.kept();
        self.flusher.kept();
        let answer = self.locked.merge(peer, op);
        self.locked.kept();
        match answer {
            Ok(merged) => Ok(merged),
            Err(refusal) => Err(HubRefusal::of(refusal)),
        }
    }

    /// Whether the operations of a ticket's edit are settled. Then they are acknowledged; otherwise
    /// nothing changes. Takes no memory.
    pub fn ack(&mut self, ticket: Ticket) -> bool
        ensures call { IsCall D.DiskFacts (ack_event ticket) (acknowledged result)
            self.old self.new }
    {
        self.locked.kept();
        self.flusher.kept();
        let settled = self.locked.ack(ticket);
        self.locked.kept();
        settled
    }

    /// The first settled operations, at most 64 in the order of the list, that a clock doesn't
    /// count. They count as told. An error is out of memory (1), and changes nothing. Costs what
    /// `Replica::tell` does.
    pub fn tell(&mut self, clock: &Clock) -> Result<Vec<Op>, HubRefusal>
        ensures call { IsCall D.DiskFacts (tell_event clock.now) (told result) self.old self.new }
        ensures kind { IfErr result IsNotOfStore }
    {
        self.locked.kept();
        self.flusher.kept();
        let answer = self.locked.tell(clock);
        self.locked.kept();
        match answer {
            Ok(ops) => Ok(ops),
            Err(refusal) => Err(HubRefusal::of(refusal)),
        }
    }

    /// How many operations of each replica are settled. All settled ones count as told. An error is
    /// out of memory (1), and changes nothing. Costs what `Replica::have` does.
    pub fn have(&mut self) -> Result<Clock, HubRefusal>
        ensures call { IsCall D.DiskFacts have_event (had result) self.old self.new }
        ensures kind { IfErr result IsNotOfStore }
    {
        self.locked.kept();
        self.flusher.kept();
        let answer = self.locked.have();
        self.locked.kept();
        match answer {
            Ok(clock) => Ok(clock),
            Err(refusal) => Err(HubRefusal::of(refusal)),
        }
    }
}
