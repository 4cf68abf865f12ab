//! What follows for edits at places that last.
ghost use Rattle.std.specs.Prelude.{◌≡◌, ◌<◌, ℕ, List, Option, None, false};
ghost use Rattle.op_model.specs.Made.{is_inside};
ghost use Rattle.op_model.specs.declared.edit.Change.{Change};
ghost use Rattle.op_model.specs.declared.lasting.Lasting.{Lasting};
ghost use Rattle.placed_edits.specs.declared.moving.TheConstants.{NOWHERE};
ghost use Rattle.placed_edits.specs.declared.spots.Spots.{Spots};
ghost use Rattle.placed_edits.specs.Placed.{are_placed, asked_by, located, IsFor};
ghost use Rattle.placed_edits.specs.Placed.{Placed};

/// An edit by numbers alone asks for its own action, whatever the text is. A change at a place that
/// isn't there is outside of each text, so it is refused with 5. Costs nothing.
pub fn places_that_are_not_there_are_refused()
    ensures numbers { (at : Lasting → Option ℕ) (p : Placed) → are_placed p.spots ≡ false
        → asked_by at p ≡ p.asked }
    ensures nowhere { (at : Lasting → Option ℕ) (done : List Change) (c : Change) (s : Spots)
        (place : Lasting) (n : ℕ) → at place ≡ None → n < NOWHERE → IsFor c s place
        → is_inside n (located at done c s) ≡ false }
{}
