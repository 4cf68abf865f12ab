//! Laws of places that last.
ghost use Rattle.std.specs.Prelude.{◌≡◌, ◌↔◌, ℕ, ◌+◌, ◌≤◌, true, List, ◌++◌, length, Some};
ghost use Rattle.op_ids.specs.Id.{Id};
ghost use Rattle.op_model.specs.declared.anchor.Anchor.TheVariants.{Before, After};
ghost use Rattle.op_model.specs.declared.lasting.Lasting.{Lasting};
ghost use Rattle.op_model.specs.declared.lasting.Lasting.TheVariants.{Beside};
ghost use Rattle.op_model.specs.declared.lasting.Neighbour.{Neighbour};
ghost use Rattle.op_model.specs.declared.lasting.Neighbour.TheVariants.{Previous, Next};
ghost use Rattle.op_model.specs.declared.edit.Change.TheVariants.{Insert};
ghost use Rattle.op_model.specs.declared.edit.Edit.{Edit};
ghost use Rattle.op_model.specs.declared.op.Op.{Op};
ghost use Rattle.op_model.specs.Lasting.{at_of, is_there, number_of, place_of};
ghost use Rattle.op_model.specs.Made.{id_at, made};
ghost use Rattle.op_model.specs.Placing.{IsOrderly};
ghost use Rattle.op_model.specs.Text.{visible};
ghost use Rattle.op_model.specs.Walk.{walk};

/// A place stands where it was made, whichever neighbour it stays with.
pub fn places_stand_where_they_were_made()
    ensures { (ops : List Op) (doc at : ℕ) (side : Neighbour) → IsOrderly ops doc
        → at ≤ length (visible ops doc) → at_of ops doc (place_of ops doc at side) ≡ Some at }
{}

/// Just before the visible character with `i` before it stand `i` visible characters, and just
/// after it one more.
pub fn places_stand_beside_their_character()
    ensures before { (ops : List Op) (doc i : ℕ) (id : Id) → IsOrderly ops doc
        → id_at (visible ops doc) i ≡ Some id → at_of ops doc (Beside (Before id)) ≡ Some i }
    ensures after { (ops : List Op) (doc i : ℕ) (id : Id) → IsOrderly ops doc
        → id_at (visible ops doc) i ≡ Some id → at_of ops doc (Beside (After id)) ≡ Some (i + 1) }
{}

/// What an insert at a place puts there comes after the place if that stays with the character
/// before it, and before the place if it stays with the one after it.
pub fn inserts_pass_places()
    ensures previous { (ops : List Op) (replica : ℕ) (edit : Edit) (at : ℕ) (added : List ℕ)
        → IsOrderly ops edit.doc → edit.change ≡ Insert at added
        → at ≤ length (visible ops edit.doc) → at_of (ops ++ made ops replica edit) edit.doc
        (place_of ops edit.doc at Previous) ≡ Some at }
    ensures next { (ops : List Op) (replica : ℕ) (edit : Edit) (at : ℕ) (added : List ℕ)
        → IsOrderly ops edit.doc → edit.change ≡ Insert at added
        → at ≤ length (visible ops edit.doc) → at_of (ops ++ made ops replica edit) edit.doc
        (place_of ops edit.doc at Next) ≡ Some (at + length added) }
{}

/// A place that is there stays there, whatever operations come.
pub fn places_stay_there()
    ensures { (before more : List Op) (doc : ℕ) (p : Lasting) → IsOrderly (before ++ more) doc
        → is_there (walk before doc) p ≡ true → is_there (walk (before ++ more) doc) p ≡ true }
{}

/// Two places that are there keep their order, whatever operations come, and so do the numbers of
/// visible characters before them: a selection never turns round.
pub fn places_keep_their_order()
    ensures numbers { (before more : List Op) (doc : ℕ) (p q : Lasting)
        → IsOrderly (before ++ more) doc
        → is_there (walk before doc) p ≡ true → is_there (walk before doc) q ≡ true
        → (number_of (walk before doc) p ≤ number_of (walk before doc) q)
        ↔ (number_of (walk (before ++ more) doc) p ≤ number_of (walk (before ++ more) doc) q) }
    ensures places { (ops : List Op) (doc i j : ℕ) (p q : Lasting)
        → number_of (walk ops doc) p ≤ number_of (walk ops doc) q
        → at_of ops doc p ≡ Some i → at_of ops doc q ≡ Some j → i ≤ j }
{}
