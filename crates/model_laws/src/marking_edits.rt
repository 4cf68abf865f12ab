//! Laws of mark edits, and of marks that grow.
ghost use Rattle.std.specs.Prelude.{◌≡◌, ◌≤◌, ℕ, true, false, ◌&&◌, if◌then◌else◌, List, ◌∷◌, ◌++◌, length, Some, None};
ghost use Rattle.op_model.specs.declared.character.Character.{Character};
ghost use Rattle.op_model.specs.declared.edit.Change.TheVariants as change;
ghost use Rattle.op_model.specs.declared.edit.Edit.{Edit};
ghost use Rattle.op_model.specs.declared.mark.Mark.{Mark};
ghost use Rattle.op_model.specs.declared.mark.MarkKey.{MarkKey};
ghost use Rattle.op_model.specs.declared.op.Op.{Op};
ghost use Rattle.op_model.specs.Causality.{IsCausallyClosed, is_within_limits};
ghost use Rattle.op_model.specs.Made.{is_inside, made};
ghost use Rattle.op_model.specs.Marks.{is_key, key_of, markings};
ghost use Rattle.op_model.specs.Placing.{IsOrderly};
ghost use Rattle.op_model.specs.Spans.{decided};
ghost use Rattle.op_model.specs.Text.{is_removed, visible};
ghost use Rattle.op_model.specs.Walk.{walk};
ghost use Rattle.model_laws.specs.Changed.{GrowsSo, is_between, shown_before};

/// After a mark edit the visible characters from its first index to its end have that mark, or for
/// an unmark no mark of that key. Every other decision, of another key or another character, is as
/// before.
pub fn edits_mark_what_they_say()
    ensures mark { (ops : List Op) (replica : ℕ) (edit : Edit) (from to : ℕ)
        (mark : Mark) (key : MarkKey) (front rest : List Character) (c : Character)
        → IsCausallyClosed ops → edit.change ≡ change.Mark from to mark
        → is_inside (length (visible ops edit.doc)) edit.change ≡ true
        → is_within_limits (ops ++ made ops replica edit) ≡ true
        → walk ops edit.doc ≡ front ++ c ∷ rest → is_removed ops edit.doc c ≡ false
        → decided (walk (ops ++ made ops replica edit) edit.doc)
        (markings (ops ++ made ops replica edit) edit.doc) (length front) key
        ≡ (if is_key (key_of mark) key && is_between from to (shown_before ops edit.doc front)
        then Some mark
        else decided (walk ops edit.doc) (markings ops edit.doc) (length front) key) }
    ensures unmark { (ops : List Op) (replica : ℕ) (edit : Edit) (from to : ℕ)
        (unmarked key : MarkKey) (front rest : List Character) (c : Character)
        → IsCausallyClosed ops → edit.change ≡ change.Unmark from to unmarked
        → is_inside (length (visible ops edit.doc)) edit.change ≡ true
        → is_within_limits (ops ++ made ops replica edit) ≡ true
        → walk ops edit.doc ≡ front ++ c ∷ rest → is_removed ops edit.doc c ≡ false
        → decided (walk (ops ++ made ops replica edit) edit.doc)
        (markings (ops ++ made ops replica edit) edit.doc) (length front) key
        ≡ (if is_key unmarked key && is_between from to (shown_before ops edit.doc front)
        then None
        else decided (walk ops edit.doc) (markings ops edit.doc) (length front) key) }
{}

/// Strong and em grow at their end, links and comments don't, and no mark grows at its start: a
/// mark that an edit puts on the characters from one index of the text to another, or takes from
/// them, covers what is inserted at an index behind its first character and before its end, right
/// at its end exactly where it grows, and nothing else.
pub fn marks_grow_at_their_end()
    ensures mark { (ops : List Op) (replica other : ℕ) (edit later : Edit) (from to at : ℕ)
        (mark : Mark) (added : List ℕ) → IsOrderly ops edit.doc
        → edit.change ≡ change.Mark from to mark
        → is_inside (length (visible ops edit.doc)) edit.change ≡ true → later.doc ≡ edit.doc
        → later.change ≡ change.Insert at added → at ≤ length (visible ops edit.doc)
        → GrowsSo ops replica edit other later (key_of mark) from to at }
    ensures unmark { (ops : List Op) (replica other : ℕ) (edit later : Edit) (from to at : ℕ)
        (key : MarkKey) (added : List ℕ) → IsOrderly ops edit.doc
        → edit.change ≡ change.Unmark from to key
        → is_inside (length (visible ops edit.doc)) edit.change ≡ true → later.doc ≡ edit.doc
        → later.change ≡ change.Insert at added → at ≤ length (visible ops edit.doc)
        → GrowsSo ops replica edit other later key from to at }
{}
