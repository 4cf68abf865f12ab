//! Acknowledgements and tellings of the locked part.
ghost use Rattle.std.specs.Prelude.{◌≡◌, if◌then◌else◌, OnOk, OnErr};
ghost use Rattle.op_model.specs.Telling.{reach};
ghost use Rattle.op_model.specs.Machine.{acknowledged, AckStep, TellStep, HaveStep};
ghost use Rattle.op_model.specs.Held.{settled_list, with_acked, with_told};
ghost use Rattle.hub_parts.specs.Locked.{state_of};
ghost use Rattle.hub_parts.specs.Fitting.{FitTogether, Side};
ghost use Rattle.hub_parts.specs.Refusal.{told, had};

use crate::locked::Locked;
use crate::refusal::LockedRefusal;
use op_ids::Clock;
use op_model::Op;
use replica_core::Ticket;

impl Locked {
    /// Whether the operations of a ticket's edit are settled. Then they are acknowledged; otherwise
    /// nothing changes. Takes no memory. Constant.
    pub fn ack(&mut self, ticket: Ticket) -> bool
        ensures call { AckStep (state_of self.old) ticket (acknowledged result)
            (state_of self.new) }
        ensures acked { self.new ≡ (if result
            then record self.old { replica = with_acked self.old.replica ticket.end }
            else self.old) }
        ensures fits { (side : Side) → FitTogether self.old side → FitTogether self.new side }
    {
        self.replica.ack(ticket)
    }

    /// The first settled operations, at most 64 in the order of the list, that a clock doesn't
    /// count. They count as told. An error is out of memory (1), and changes nothing. Costs what
    /// `Replica::tell` does.
    pub fn tell(&mut self, clock: &Clock) -> Result<Vec<Op>, LockedRefusal>
        ensures call { TellStep (state_of self.old) clock.now (told result)
            (state_of self.new) }
        ensures made { OnOk result (self.new ≡ record self.old {
          replica
              = with_told self.old.replica (reach clock.now (settled_list self.old.replica));
        }) }
        ensures same { OnErr result (self.new ≡ self.old) }
        ensures fits { (side : Side) → FitTogether self.old side → FitTogether self.new side }
    {
        match self.replica.tell(clock) {
            Ok(ops) => Ok(ops),
            Err(refusal) => Err(LockedRefusal::Replica(refusal)),
        }
    }

    /// How many operations of each replica are settled. All settled ones count as told. An error is
    /// out of memory (1), and changes nothing. Costs what `Replica::have` does.
    pub fn have(&mut self) -> Result<Clock, LockedRefusal>
        ensures call { HaveStep (state_of self.old) (had result) (state_of self.new) }
        ensures made { OnOk result (self.new ≡ record self.old {
          replica
              = with_told self.old.replica self.old.replica.settled;
        }) }
        ensures same { OnErr result (self.new ≡ self.old) }
        ensures fits { (side : Side) → FitTogether self.old side → FitTogether self.new side }
    {
        match self.replica.have() {
            Ok(clock) => Ok(clock),
            Err(refusal) => Err(LockedRefusal::Replica(refusal)),
        }
    }
}
