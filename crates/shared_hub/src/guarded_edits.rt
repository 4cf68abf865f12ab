//! Edits at places that last, under the lock of a shared hub.
ghost use Rattle.std.specs.Prelude.{◌≡◌, ◌≢◌, ◌⊎◌, None, Err, IfOk, IfErr, OnErr};
ghost use Rattle.op_model.specs.Machine.{known_ticket};
ghost use Rattle.shared_hub.specs.Guarded.{after_ticket};
ghost use Rattle.shared_hub.specs.Refusal.{number_of, told_at};
ghost use Rattle.shared_hub.specs.Shared.{asked_then, EntersAsked, IsWithoutMemory};
ghost use Rattle.shared_hub.specs.Shared.{MomentOf, RefusesAsked};
ghost use Rattle.shared_hub.specs.declared.refusal.SharedRefusal.TheVariants.{Stopping};

use crate::guarded::Guarded;
use crate::passes::Pass;
use crate::refusal::SharedRefusal;
use pass_books::BookNames;
use placed_edits::PlacedAction;
use replica_core::Ticket;
use std::alloc::Global;

impl<J: BookNames> Guarded<J> {
    /// Makes an edit at places that last, by the numbers that they have, as `edit` makes it. They
    /// are looked up only for an edit that wasn't made before, and not after a stop. Refuses with 1
    /// if there is no memory for the numbers. Costs what `Locked::asked` and `edit` do.
    pub(crate) fn edit_placed(
        &mut self,
        alloc: Global,
        pass: &mut Pass<J>,
        placed: &PlacedAction,
    ) -> Result<Ticket, SharedRefusal>
        ensures stopping { result ≡ Err Stopping → MomentOf pass.old
            (λ l. known_ticket l.replica placed.now.asked ≡ None) }
        ensures entered { IfOk result (λ t. EntersAsked (asked_then placed.now) pass.old
            (after_ticket t pass.old) pass.new t) }
        ensures refused { IfErr result (λ e. e ≢ Stopping
            → RefusesAsked (asked_then placed.now) pass.old (number_of e) (told_at e)
            ⊎ IsWithoutMemory pass.old placed.now e) }
        ensures same { OnErr result (pass.new ≡ pass.old) }
    {
        self.audit(pass);
        if self.knows(placed.action()) {
            return self.edit(pass, placed.action());
        }
        if self.is_stopping {
            return Err(SharedRefusal::Stopping);
        }
        if !placed.is_placed() {
            return self.edit(pass, placed.action());
        }
        match self.asked(alloc, placed) {
            Ok(edit) => self.edit(pass, &edit),
            Err(_) => Err(SharedRefusal::out_of_memory()),
        }
    }
}
