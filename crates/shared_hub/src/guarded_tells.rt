//! What is acknowledged and told under the lock of a shared hub.
ghost use Rattle.std.specs.Prelude.{◌≡◌, is_ok};
ghost use Rattle.op_model.specs.Machine.{acknowledged};
ghost use Rattle.op_model.specs.Machine.{ack as ack_event, tell as tell_event, have as have_event};
ghost use Rattle.shared_hub.specs.Guarded.{IsMine};
ghost use Rattle.shared_hub.specs.Moments.{with_book_if, with_moment_if};
ghost use Rattle.shared_hub.specs.Refusal.{told, had};
ghost use Rattle.shared_hub.specs.Shared.{MakesFor};

use crate::guarded::Guarded;
use crate::passes::Pass;
use crate::refusal::SharedRefusal;
use op_ids::Clock;
use op_model::Op;
use pass_books::BookNames;
use replica_core::Ticket;

impl<J: BookNames> Guarded<J> {
    /// Whether the operations of a ticket's edit are settled. Then they are acknowledged, and this
    /// moment is entered; otherwise nothing changes. Takes no memory. Constant.
    pub(crate) fn ack(&mut self, pass: &mut Pass<J>, ticket: Ticket) -> bool
        ensures mine { IsMine self.old.locked pass.old }
        ensures call { MakesFor self.old.locked self.new.locked pass.old pass.new
            (ack_event ticket) (acknowledged result) }
        ensures pass { pass.new ≡ with_moment_if result pass.old self.new.locked }
        ensures others { self.new ≡ record self.old {
          locked = self.new.locked;
          books = with_book_if result self.old.books pass.old.number pass.new.moments;
        } }
    {
        self.audit(pass);
        let result = self.locked.ack(ticket);
        self.enter_if(result, pass);
        self.audit(pass);
        result
    }

    /// The first settled operations, at most 64 in the order of the list, that a clock doesn't
    /// count. They count as told, and this moment is entered. An error is out of memory (1), and
    /// changes nothing. Costs what `Locked::tell` does.
    pub(crate) fn tell(
        &mut self,
        pass: &mut Pass<J>,
        clock: &Clock,
    ) -> Result<Vec<Op>, SharedRefusal>
        ensures call { MakesFor self.old.locked self.new.locked pass.old pass.new
            (tell_event clock.now) (told result) }
        ensures pass { pass.new ≡ with_moment_if (is_ok result) pass.old self.new.locked }
        ensures others { self.new ≡ record self.old {
          locked = self.new.locked;
          books = with_book_if (is_ok result) self.old.books pass.old.number pass.new.moments;
        } }
    {
        self.audit(pass);
        let result = self.locked.tell(clock);
        self.enter_if(result.is_ok(), pass);
        self.audit(pass);
        match result {
            Ok(ops) => Ok(ops),
            Err(refusal) => Err(SharedRefusal::Locked(refusal)),
        }
    }

    /// How many operations of each replica are settled. All settled ones count as told, and this
    /// moment is entered. An error is out of memory (1), and changes nothing. Costs what
    /// `Locked::have` does.
    pub(crate) fn have(&mut self, pass: &mut Pass<J>) -> Result<Clock, SharedRefusal>
        ensures call { MakesFor self.old.locked self.new.locked pass.old pass.new
            have_event (had result) }
        ensures pass { pass.new ≡ with_moment_if (is_ok result) pass.old self.new.locked }
        ensures others { self.new ≡ record self.old {
          locked = self.new.locked;
          books = with_book_if (is_ok result) self.old.books pass.old.number pass.new.moments;
        } }
    {
        self.audit(pass);
        let result = self.locked.have();
        self.enter_if(result.is_ok(), pass);
        self.audit(pass);
        match result {
            Ok(clock) => Ok(clock),
            Err(refusal) => Err(SharedRefusal::Locked(refusal)),
        }
    }

    /// Enters this moment into a pass and its book, if something was answered.
    fn enter_if(&mut self, answered: bool, pass: &mut Pass<J>)
        ensures pass { pass.new ≡ with_moment_if answered pass.old self.old.locked }
        ensures others { self.new ≡ record self.old {
          books = with_book_if answered self.old.books pass.old.number pass.new.moments;
        } }
    {
        if answered {
            self.enter(pass);
        }
    }
}
