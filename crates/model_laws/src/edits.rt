//! Laws of edits: what they make, and what that shows.
ghost use Rattle.std.specs.Prelude.{◌≡◌, ℕ, true, false, List, ◌∷◌, ◌++◌, length, Contains};
ghost use Rattle.std.specs.List.{list_all};
ghost use Rattle.op_ids.specs.Id.{Id, is_below};
ghost use Rattle.op_model.specs.declared.anchor.Anchor.TheVariants.{After};
ghost use Rattle.op_model.specs.declared.anchor.End.TheVariants as end;
ghost use Rattle.op_model.specs.declared.character.Character.{Character};
ghost use Rattle.op_model.specs.declared.edit.Change.TheVariants as change;
ghost use Rattle.op_model.specs.declared.marking.Marking.{Marking};
ghost use Rattle.op_model.specs.declared.op.Op.{Op};
ghost use Rattle.op_model.specs.declared.edit.Edit.{Edit};
ghost use Rattle.op_model.specs.Causality.{FollowInTurn, IsCausallyClosed, is_within_limits};
ghost use Rattle.op_model.specs.Text.{visible, text};
ghost use Rattle.op_model.specs.Made.{is_inside, made};
ghost use Rattle.op_model.specs.Marks.{markings};
ghost use Rattle.op_model.specs.Places.{covers};
ghost use Rattle.op_model.specs.Placing.{has_id, FitInTurn, IsOrderly};
ghost use Rattle.op_model.specs.Walk.{walk};
ghost use Rattle.model_laws.specs.Since.{RemoveNothingAgain};
ghost use Rattle.model_laws.specs.Changed.{changed, EndedMarksStay, IsJustBefore};

/// The operations that an edit makes may follow the list one after another, wherever they keep the
/// limits of a store: so a causally closed list stays so.
pub fn edits_keep_lists_closed()
    ensures follow { (ops : List Op) (replica : ℕ) (edit : Edit)
        → is_within_limits (ops ++ made ops replica edit) ≡ true
        → FollowInTurn ops (made ops replica edit) }
    ensures closed { (ops : List Op) (replica : ℕ) (edit : Edit) → IsCausallyClosed ops
        → is_within_limits (ops ++ made ops replica edit) ≡ true
        → IsCausallyClosed (ops ++ made ops replica edit) }
{}

/// The text after an edit is the text before it with the edit's change: a text inserted at its
/// index, a given number of characters left out from an index on, or, for a mark, the same text.
pub fn edits_change_the_text()
    ensures { (ops : List Op) (replica : ℕ) (edit : Edit) → IsCausallyClosed ops
        → is_inside (length (visible ops edit.doc)) edit.change ≡ true
        → is_within_limits (ops ++ made ops replica edit) ≡ true
        → text (ops ++ made ops replica edit) edit.doc ≡ changed (text ops edit.doc) edit.change }
{}

/// A mark that ends just after a character, as a link or a comment, doesn't grow there: it covers
/// none of the characters that are inserted behind that one, nor where it is a tombstone at the
/// place of the insert. So it is in every list that can be applied to the document, and in a
/// causally closed one.
pub fn ended_marks_dont_grow()
    ensures orderly { (ops : List Op) (replica : ℕ) (edit : Edit) (at : ℕ) (added : List ℕ)
        → IsOrderly ops edit.doc → edit.change ≡ change.Insert at added
        → is_inside (length (visible ops edit.doc)) edit.change ≡ true
        → EndedMarksStay ops edit.doc at (made ops replica edit) }
    ensures closed { (ops : List Op) (replica : ℕ) (edit : Edit) (at : ℕ) (added : List ℕ)
        (m : Marking) (id : Id) (front rest : List Character) (c : Character)
        → IsCausallyClosed ops → edit.change ≡ change.Insert at added
        → is_inside (length (visible ops edit.doc)) edit.change ≡ true
        → is_within_limits (ops ++ made ops replica edit) ≡ true
        → Contains (markings ops edit.doc) m → m.end ≡ end.To (After id)
        → IsJustBefore ops edit.doc at id
        → walk (ops ++ made ops replica edit) edit.doc ≡ front ++ c ∷ rest
        → has_id (walk ops edit.doc) c.id ≡ false
        → covers (walk (ops ++ made ops replica edit) edit.doc) (length front) m ≡ false }
{}

/// The operations that an edit makes fit its document, one after another, after any list.
pub fn made_operations_fit()
    ensures { (ops : List Op) (replica : ℕ) (edit : Edit)
        → FitInTurn ops edit.doc (made ops replica edit) }
{}

/// The ids that an edit makes are greater than all in the list.
pub fn made_ids_are_greater()
    ensures { (ops : List Op) (replica : ℕ) (edit : Edit)
        → list_all (λ op. list_all (λ earlier. is_below earlier.id op.id) ops)
        (made ops replica edit) ≡ true }
{}

/// An edit removes nothing again: what it removes a reader sees, and each character once.
pub fn edits_remove_nothing_again()
    ensures { (ops : List Op) (replica : ℕ) (edit : Edit) → IsCausallyClosed ops
        → RemoveNothingAgain ops (made ops replica edit) }
{}
