//! What stands under the lock of a shared hub.
ghost use Rattle.std.specs.Prelude.{◌≡◌, All, false, ◌≢◌, ◌↔◌, true, None, Some, Err, slice_get, List};
ghost use Rattle.hub_parts.specs.Locked.{IsLocked, LockedHeld, state_of};
ghost use Rattle.shared_hub.specs.Books.{ends_of};
ghost use Rattle.op_model.specs.Machine.{edit as edit_event, merge as merge_event};
ghost use Rattle.op_model.specs.Machine.{known_ticket, EditStep, MergeStep};
ghost use Rattle.shared_hub.specs.Guarded.{IsMine, EntersEdit, EntersMerge};
ghost use Rattle.shared_hub.specs.Moments.{AreBooksOf, IsPastOf, WasSettledAt, with_book, with_moment};
ghost use Rattle.hub_parts.specs.Refusal.{number_of as number_of_locked};
ghost use Rattle.replica_core.specs.RefusedAt.{place_told};
ghost use Rattle.shared_hub.specs.Refusal.{edited, merged, number_of, told_at};
ghost use Rattle.shared_hub.specs.Shared.{MakesFor};
ghost use Rattle.shared_hub.specs.declared.refusal.SharedRefusal.TheVariants.{Stopping};

use crate::passes::{Books, Pass};
use crate::refusal::SharedRefusal;
use crate::turns::Turns;
use hub_parts::{Locked, LockedRefusal};
use op_model::{Action, Op};
use pass_books::BookNames;
use replica_core::{Merged, Ticket};
use std::marker::Model;

/// What stands under the lock of a shared hub: its locked part, the books of the passes, and
/// whether it was asked to stop. Contracts see these three.
///
/// The type keeps that each book has an entry for each kept step of its number: how long the list
/// was behind that step; and that each moment in a book is in the locked part's own past: so what a
/// call promised then, it promised of this very hub. Book 0 has the meetings with the flusher, so
/// the one that fits is this hub's own. None of its calls waits, and none makes a device call.
#[derive(Drop)]
pub struct Guarded<J: BookNames> {
    pub(crate) locked: Locked,
    pub(crate) books: Books<J>,
    pub(crate) is_stopping: bool,
    pub(crate) turns: Turns,
}

impl<J: BookNames> Model for Guarded<J> {
    ghost use Rattle.shared_hub.specs.Guarded.{GuardedHeld};
    ghost use Rattle.shared_hub.specs.Moments.{AreBooksOf};

    ghost Value = { GuardedHeld };

    ghost view = { λ g. record { locked = g.locked; books = g.books; stopping = g.is_stopping } };

    ghost invariant = { λ g. AreBooksOf g.locked g.books };
}

impl<J: BookNames> Guarded<J> {
    /// A locked part beside books that fit its steps. It takes edits.
    pub(crate) fn new(locked: Locked, books: Books<J>) -> Guarded<J>
        requires { AreBooksOf locked books }
        ensures { result ≡ record { locked = locked; books = books; stopping = false } }
    {
        Guarded {
            locked,
            books,
            is_stopping: false,
            turns: Turns::new(),
        }
    }

    /// The locked part.
    pub fn locked(&self) -> &Locked
        ensures { result.now ≡ self.now.locked }
    {
        &self.locked
    }

    /// The locked part, of which all else lets go.
    pub fn into_locked(self) -> Locked
        ensures { result ≡ self.locked }
    {
        let Guarded { locked, .. } = self;
        locked
    }

    /// Shows that a pass has an entry for each kept step of its number, that its moments are in the
    /// locked part's past, and that at each of them as many operations were settled as after a
    /// meeting. Constant; takes no memory.
    pub fn audit(&mut self, pass: &mut Pass<J>)
        ensures mine { pass.old.entries ≡ ends_of pass.old.number self.old.locked.replica.steps }
        ensures past { All (IsPastOf self.old.locked) pass.old.moments }
        ensures settled { (meetings : List LockedHeld)
            → slice_get self.old.books.moments 0 ≡ Some meetings
            → All (WasSettledAt meetings) pass.old.moments }
        ensures kept { IsLocked self.old.locked }
        ensures same { (self.new ≡ self.old) × (pass.new ≡ pass.old) }
    {
        self.locked.kept();
        self.books.audit(pass);
    }

    /// Enters this moment into a pass and its book. Constant; takes no memory.
    pub(crate) fn enter(&mut self, pass: &mut Pass<J>)
        ensures pass { pass.new ≡ with_moment pass.old self.old.locked }
        ensures others { self.new ≡ record self.old {
          books = with_book self.old.books pass.old.number pass.new.moments;
        } }
    {
        self.locked.kept();
        self.books.audit(pass);
        self.books.enter(pass, &self.locked);
    }
}

// Edits and merges.
impl<J: BookNames> Guarded<J> {
    /// Makes an edit, as a step of the pass's number, and enters it and this moment. An edit that
    /// was made before, under its token, has the ticket that it had then, and is no step. Refuses
    /// another one with 12 if it was asked to stop, else as `Locked::edit` does (9, 6, 5, 7, 10, 8,
    /// 1). A refused edit changes nothing. Costs what `Locked::edit` does.
    pub(crate) fn edit(
        &mut self,
        pass: &mut Pass<J>,
        edit: &Action,
    ) -> Result<Ticket, SharedRefusal>
        ensures mine { IsMine self.old.locked pass.old }
        ensures stopping { (result ≡ Err Stopping) ↔ ((self.old.stopping ≡ true)
            × (known_ticket self.old.locked.replica edit.now ≡ None)) }
        ensures call { result ≢ Err Stopping → MakesFor self.old.locked self.new.locked
            pass.old pass.new (edit_event pass.old.number edit.now) (edited result) }
        ensures enters { EntersEdit result edit.now self.old pass.old self.new pass.new }
    {
        self.audit(pass);
        if self.is_stopping && self.locked.known(edit).is_none() {
            return Err(SharedRefusal::Stopping);
        }
        let result = self.enter_edit(pass, edit);
        self.audit(pass);
        result
    }

    /// Makes an edit. Enters it if it is new, and the moment behind it if there is a ticket.
    fn enter_edit(&mut self, pass: &mut Pass<J>, edit: &Action) -> Result<Ticket, SharedRefusal>
        requires { IsMine self.old.locked pass.old }
        ensures call { EditStep (state_of self.old.locked) pass.old.number edit.now
            (edited result) (state_of self.new.locked) }
        ensures enters { EntersEdit result edit.now self.old pass.old self.new pass.new }
        ensures other { result ≢ Err Stopping }
    {
        match self.locked.edit(pass.number() as u64, edit) {
            Ok(ticket) => {
                if ticket.known {
                    self.enter(pass);
                    return Ok(ticket);
                }
                self.books.add(pass, ticket.end as u64);
                self.turns.edits = self.turns.edits.wrapping_add(1);
                self.enter(pass);
                Ok(ticket)
            }
            Err(refusal) => Err(self.refusal_of(edit, refusal)),
        }
    }

    /// How an edit is refused: with the change of several that it is for, if it is for one of them.
    fn refusal_of(&self, edit: &Action, refusal: LockedRefusal) -> SharedRefusal
        ensures number { number_of result ≡ number_of_locked refusal }
        ensures place { told_at result ≡ place_told self.now.locked.replica edit.now
            (number_of_locked refusal) }
        ensures other { result ≢ Stopping }
    {
        if !refusal.is_for_a_change() {
            return SharedRefusal::Locked(refusal);
        }
        match self.refused_at(edit) {
            Some(at) => SharedRefusal::Change(refusal, at),
            None => SharedRefusal::Locked(refusal),
        }
    }

    /// Merges a peer's operation, as a step of the pass's number, and enters it where it is
    /// applied. Refuses with 12 where it was asked to stop, else as `Locked::merge` does (9, 20 to
    /// 24, 10, 8, 1). A refused merge changes nothing. Costs what `Locked::merge` does.
    pub(crate) fn merge(&mut self, pass: &mut Pass<J>, op: Op) -> Result<Merged, SharedRefusal>
        ensures stopping { self.old.stopping ≡ true → result ≡ Err Stopping }
        ensures call { self.old.stopping ≡ false → MakesFor self.old.locked self.new.locked
            pass.old pass.new (merge_event pass.old.number op) (merged result) }
        ensures enters { EntersMerge result op self.old pass.old self.new pass.new }
    {
        if self.is_stopping {
            return Err(SharedRefusal::Stopping);
        }
        self.audit(pass);
        let result = self.enter_merge(pass, op);
        self.audit(pass);
        result
    }

    /// Merges a peer's operation, and enters it where it is applied.
    fn enter_merge(&mut self, pass: &mut Pass<J>, op: Op) -> Result<Merged, SharedRefusal>
        requires { IsMine self.old.locked pass.old }
        ensures call { MergeStep (state_of self.old.locked) pass.old.number op (merged result)
            (state_of self.new.locked) }
        ensures enters { EntersMerge result op self.old pass.old self.new pass.new }
    {
        match self.locked.merge(pass.number() as u64, op) {
            Ok(Merged::Applied) => {
                let end = self.locked.list().len() as u64;
                self.books.add(pass, end);
                Ok(Merged::Applied)
            }
            Ok(Merged::Known) => Ok(Merged::Known),
            Ok(Merged::Early) => Ok(Merged::Early),
            Err(refusal) => Err(SharedRefusal::Locked(refusal)),
        }
    }
}
