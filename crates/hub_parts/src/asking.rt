//! What an edit at places that last asks for, by numbers.
ghost use Rattle.std.specs.Prelude.{◌≡◌, [], ◌∷◌, IfOk, option_map};
ghost use Rattle.op_model.specs.Lasting.{at_of};
ghost use Rattle.placed_edits.specs.Placed.{asked_at, located, located_in_turn, number_after};

use crate::locked::Locked;
use op_model::{Action, Anchor, Change, Edit, Lasting};
use placed_edits::{PlacedAction, Spots, begin, moved_through, neighbour_of, with_numbers};
use std::alloc::{AllocError, Global};

impl Locked {
    /// The action by numbers that an edit asks for: its places that last are where their characters
    /// are, unsettled operations included, moved by the changes of the edit before them. An error
    /// is out of memory (1). Costs a `Replica::at` for each place, a step for each change before
    /// it, and a copy of all changes.
    pub fn asked(&self, alloc: Global, placed: &PlacedAction) -> Result<Action, AllocError>
        ensures { IfOk result (λ action. action
            ≡ asked_at self.now.replica.list placed.now) }
    {
        let first = placed.action().first();
        let others = placed.action().others();
        let mut changes = self.located_in_turn(alloc, first, others, placed)?;
        let change = changes.remove(0);
        let edit = Edit {
            doc: first.doc,
            rev: first.rev,
            token: first.token,
            change,
        };
        let Some(action) = Action::new(edit, changes) else {
            unreachable!();
        };
        Ok(action)
    }

    /// The changes of an edit and those after it by numbers, each after those before it.
    fn located_in_turn(
        &self,
        alloc: Global,
        first: &Edit,
        others: &[Change],
        placed: &PlacedAction,
    ) -> Result<Vec<Change>, AllocError>
        ensures { IfOk result (λ changes. changes.items
            ≡ located_in_turn (at_of self.now.replica.list first.now.doc) []
            (first.now.change ∷ others.now) placed.now.spots) }
    {
        let mut done = Vec::with_capacity(alloc, others.len().saturating_add(1))?;
        let change = self.located(first.doc, &done, &first.change, placed.spots(0))?;
        done.push(change)?;
        for (i, change) in others.iter().enumerate() {
            let change = self.located(first.doc, &done, change, placed.spots(i + 1))?;
            done.push(change)?;
        }
        Ok(done)
    }

    /// A change by numbers, after these ones.
    fn located(
        &self,
        doc: u32,
        done: &[Change],
        change: &Change,
        spots: Spots,
    ) -> Result<Change, AllocError>
        ensures { IfOk result (λ made. made
            ≡ located (at_of self.now.replica.list doc) done.now change.now spots) }
    {
        let from = self.number(doc, done, spots.from);
        let to = self.number(doc, done, spots.to);
        with_numbers(change, from, to)
    }

    /// The number of a place after these changes, if there is a place.
    fn number(&self, doc: u32, done: &[Change], place: Option<Lasting>) -> Option<u32>
        ensures { result
            ≡ option_map (number_after (at_of self.now.replica.list doc) done.now) place }
    {
        // The kit's borrow checker looks up the types that a place holds by the names in a
        // function.
        let _: Option<Anchor> = None;
        let place = place?;
        let number = begin(self.replica.at(doc, &place));
        Some(moved_through(neighbour_of(&place), done, number))
    }
}
