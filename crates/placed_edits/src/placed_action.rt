//! An action of which places are named by a character beside them.
ghost use Rattle.std.specs.Prelude.{◌≡◌, ◌∷◌, []};
ghost use Rattle.placed_edits.specs.Placed.{are_placed, no_spots, spots_at};

use crate::spots::Spots;
use op_model::Action;
use std::alloc::Global;
use std::marker::Model;

/// An action, and the places that last which stand for numbers of its changes. Contracts see the
/// action as it would be by its own numbers, and the places of each change in turn; a change beyond
/// the list of them has none.
#[derive(Debug, Drop)]
pub struct PlacedAction {
    action: Action,
    first: Spots,
    others: Vec<Spots>,
}

impl Model for PlacedAction {
    ghost use Rattle.std.specs.Prelude.{◌∷◌};
    ghost use Rattle.placed_edits.specs.Placed.{Placed};

    ghost Value = { Placed };

    ghost view = { λ a. record { asked = a.action; spots = a.first ∷ a.others.items } };
}

impl PlacedAction {
    /// An action by its own numbers alone. Takes no memory.
    pub fn by_numbers(alloc: Global, action: Action) -> PlacedAction
        ensures { result ≡ record { asked = action; spots = no_spots ∷ [] } }
    {
        PlacedAction {
            action,
            first: Spots::none(),
            others: Vec::new(alloc),
        }
    }

    /// An action with the places of its first change, and of those after it. Takes no memory.
    pub fn new(action: Action, first: Spots, others: Vec<Spots>) -> PlacedAction
        ensures { result ≡ record { asked = action; spots = first ∷ others.items } }
    {
        PlacedAction {
            action,
            first,
            others,
        }
    }

    /// The action as it would be by its own numbers. Constant.
    pub fn action(&self) -> &Action
        ensures { result.now ≡ self.now.asked }
    {
        &self.action
    }

    /// The places of the change of this number, counted from 0. Constant.
    pub fn spots(&self, number: usize) -> Spots
        ensures { result ≡ spots_at number self.now.spots }
    {
        if number == 0 {
            return self.first;
        }
        if number > self.others.len() {
            return Spots::none();
        }
        self.others[number - 1]
    }

    /// Whether a place stands for a number of any of its changes. A step for each.
    pub fn is_placed(&self) -> bool
        ensures { result ≡ are_placed self.now.spots }
    {
        if self.first.is_placed() {
            return true;
        }
        for spots in &self.others {
            if spots.is_placed() {
                return true;
            }
        }
        false
    }
}
