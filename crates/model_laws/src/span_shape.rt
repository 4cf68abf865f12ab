//! Laws of spans.
ghost use Rattle.std.specs.Prelude.{◌≡◌, ◌↔◌, ℕ, true, false, List, map, Some, Contains};
ghost use Rattle.std.specs.List.{concat};
ghost use Rattle.op_ids.specs.Id.{is_below};
ghost use Rattle.op_model.specs.declared.op.Op.{Op};
ghost use Rattle.op_model.specs.declared.character.Character.{Character};
ghost use Rattle.op_model.specs.declared.marking.Marking.{Marking};
ghost use Rattle.op_model.specs.declared.mark.MarkKey.{MarkKey};
ghost use Rattle.op_model.specs.declared.mark.Marks.{Marks};
ghost use Rattle.op_model.specs.Marks.{is_key};
ghost use Rattle.op_model.specs.Text.{text};
ghost use Rattle.op_model.specs.Places.{covers};
ghost use Rattle.op_model.specs.Spans.{deciding, is_same_marks, spans};
ghost use Rattle.model_laws.specs.Apart.{AreApart, AreFull};

/// The texts of the spans, joined, are the text of the document.
pub fn spans_make_up_the_text()
    ensures { (ops : List Op) (doc : ℕ)
        → concat (map (λ s. s.text) (spans ops doc)) ≡ text ops doc }
{}

/// The spans are the greatest runs with equal marks: neighbours have different marks, and none is
/// empty.
pub fn spans_are_greatest_runs()
    ensures apart { (ops : List Op) (doc : ℕ) → AreApart (spans ops doc) }
    ensures full { (ops : List Op) (doc : ℕ) → AreFull (spans ops doc) }
{}

/// The test of marks says exactly whether they are equal.
pub fn is_same_marks_decides()
    ensures { (a b : Marks) → (is_same_marks a b ≡ true) ↔ (a ≡ b) }
{}

/// The test of keys says exactly whether they are equal.
pub fn is_key_decides()
    ensures { (a b : MarkKey) → (is_key a b ≡ true) ↔ (a ≡ b) }
{}

/// What decides a key of a character is one of the mark operations of that key that cover it. Where
/// there is any, one decides, and none of them has a greater id.
pub fn the_greatest_id_decides()
    ensures covering { (cs : List Character) (ms : List Marking) (k : ℕ)
        (key : MarkKey) (m : Marking) → deciding cs ms k key ≡ Some m
        → Contains ms m × (is_key m.key key ≡ true) × (covers cs k m ≡ true) }
    ensures greatest { (cs : List Character) (ms : List Marking) (k : ℕ)
        (key : MarkKey) (other : Marking)
        → Contains ms other → is_key other.key key ≡ true → covers cs k other ≡ true
        → (m : Marking) × (deciding cs ms k key ≡ Some m) × (is_below m.id other.id ≡ false) }
{}
