//! Laws of what changed in a text since a beginning of the operations.
ghost use Rattle.std.specs.Prelude.{◌≡◌, ℕ, true, not, ◌&&◌, List, [], ◌∷◌, ◌++◌};
ghost use Rattle.std.specs.Prelude.{length, map, filter, All, Option};
ghost use Rattle.op_ids.specs.Id.{Id};
ghost use Rattle.op_model.specs.declared.op.Op.{Op};
ghost use Rattle.op_model.specs.declared.character.Character.{Character};
ghost use Rattle.op_model.specs.declared.change_step.ChangeStep.{ChangeStep};
ghost use Rattle.op_model.specs.declared.change_step.ChangeStep.TheVariants.{Keep, Drop, Put, Mark};
ghost use Rattle.op_model.specs.Walk.{walk};
ghost use Rattle.op_model.specs.Text.{is_removed, visible, rev};
ghost use Rattle.op_model.specs.Marks.{markings};
ghost use Rattle.op_model.specs.Places.{index_of};
ghost use Rattle.op_model.specs.Spans.{marks_of, spans};
ghost use Rattle.op_model.specs.Causality.{HaveSameOps, IsCausallyClosed};
ghost use Rattle.op_model.specs.Placing.{has_id, IsOrderly};
ghost use Rattle.op_model.specs.Changes.{is_shown, marks_at, became, step_of, steps, changes};
ghost use Rattle.op_model.specs.Changes.{applied, shown, shown_since};
ghost use Rattle.model_laws.specs.Since.{taken, given, AreJoined, AreSome, all_kept, as_spans};
ghost use Rattle.model_laws.specs.Since.{without_ids, of_doc};
ghost use Rattle.model_laws.specs.Since.{is_removed_first, was_shown, IsUncovered, IsUntouched};
ghost use Rattle.model_laws.specs.Since.{with_any_last, followed_by};
ghost use Rattle.model_laws.specs.Rows.{d, x, y, z, plain, strong, put, abc, b_removed, x_typed};
ghost use Rattle.model_laws.specs.Rows.{all_strong, typed_and_removed, marked_and_typed};
ghost use Rattle.model_laws.specs.Rows.{removed_again, typed_elsewhere, all_at_once};

/// Whoever takes the steps over what was shown before sees what is shown now: the same text, the
/// same marks, and each character that stayed is the one that it was. Its greatest runs with equal
/// marks are the spans. One who keeps no ids can follow from answer to answer.
pub fn changes_show_what_is_there()
    ensures applied { (before more : List Op) (doc : ℕ) → IsOrderly (before ++ more) doc
        → applied (changes before (before ++ more) doc) (shown before doc)
        ≡ shown_since before (before ++ more) doc }
    ensures spans { (before more : List Op) (doc : ℕ) → IsOrderly (before ++ more) doc
        → as_spans (applied (changes before (before ++ more) doc) (shown before doc))
        ≡ spans (before ++ more) doc }
    ensures followed { (before more : List Op) (doc : ℕ) → IsOrderly (before ++ more) doc
        → applied (changes before (before ++ more) doc) (without_ids (shown before doc))
        ≡ without_ids (shown (before ++ more) doc) }
{}

/// The steps go over the whole text: they take as many characters as were shown, and leave as many
/// as are shown.
pub fn changes_go_over_the_text()
    ensures taken { (before more : List Op) (doc : ℕ) → IsOrderly (before ++ more) doc
        → taken (changes before (before ++ more) doc) ≡ length (visible before doc) }
    ensures given { (before after : List Op) (doc : ℕ)
        → given (changes before after doc) ≡ length (visible after doc) }
{}

/// The steps are as few as they can be in their order: no two neighbours could be one, and none is
/// empty.
pub fn changes_are_joined()
    ensures joined { (before after : List Op) (doc : ℕ) → AreJoined (changes before after doc) }
    ensures some { (before after : List Op) (doc : ℕ) → AreSome (changes before after doc) }
{}

/// Only operations of the document matter, and the number of those that came before is enough: the
/// changes since any two beginnings of a list with that number are the same. If none came since,
/// one step keeps all.
pub fn changes_go_by_the_number_of_operations()
    ensures document { (before after : List Op) (doc : ℕ)
        → changes before after doc ≡ changes (of_doc doc before) (of_doc doc after) doc }
    ensures number { (before more other rest after : List Op) (doc : ℕ)
        → before ++ more ≡ other ++ rest → rev before doc ≡ rev other doc
        → changes before after doc ≡ changes other after doc }
    ensures none { (before more : List Op) (doc : ℕ) → rev before doc ≡ rev (before ++ more) doc
        → changes before (before ++ more) doc ≡ all_kept (length (visible (before ++ more) doc)) }
{}

/// Since the beginning just each span of now was put: whoever has nothing yet can read the spans.
pub fn changes_since_the_beginning_are_the_spans()
    ensures { (ops : List Op) (doc : ℕ) → IsOrderly ops doc
        → changes [] ops doc ≡ map Put (spans ops doc) }
{}

/// Peers that had the same operations before, and have the same now, tell the same changes, in
/// whatever order the operations came.
pub fn same_operations_same_changes()
    ensures { (before other now too : List Op) (doc : ℕ)
        → IsCausallyClosed before → IsCausallyClosed other → HaveSameOps before other
        → IsCausallyClosed now → IsCausallyClosed too → HaveSameOps now too
        → changes before now doc ≡ changes other too doc }
{}

/// Whoever makes the steps needs no look at the text of before. A character of now was shown if it
/// wasn't inserted since, and isn't removed, or one of the operations since was the first to remove
/// it. That one is the first where nothing removed the character before. Its marks were those that
/// the mark operations of before give it at its place of now.
pub fn what_was_shown_is_known_now()
    ensures shown { (before more : List Op) (doc : ℕ) (c : Character)
        → IsOrderly (before ++ more) doc → has_id (walk (before ++ more) doc) c.id ≡ true
        → is_shown before doc c ≡ was_shown before more doc c }
    ensures first { (before more : List Op) (doc : ℕ) (c : Character)
        → is_removed_first before more doc c
        ≡ (not (is_removed before doc c) && is_removed more doc c) }
    ensures marks { (before more : List Op) (doc : ℕ) (id : Id)
        → IsOrderly (before ++ more) doc → has_id (walk before doc) id ≡ true
        → marks_at before doc id ≡ marks_of (walk (before ++ more) doc) (markings before doc)
        (index_of id (walk (before ++ more) doc)) }
    ensures step { (before more : List Op) (doc : ℕ) (front rest : List Character) (c : Character)
        → IsOrderly (before ++ more) doc → walk (before ++ more) doc ≡ front ++ c ∷ rest
        → step_of before (before ++ more) doc c
        ≡ became (was_shown before more doc c) (not (is_removed (before ++ more) doc c))
        (marks_of (walk (before ++ more) doc) (markings before doc) (length front))
        (marks_of (walk (before ++ more) doc) (markings (before ++ more) doc) (length front))
        c.value }
{}

/// A character of before that no mark operation since covers has the marks that it had. A part of
/// the text that no operation since touches is one step, which keeps as many characters as are
/// shown there: nothing else has to be known of it.
pub fn untouched_characters_stay()
    ensures marks { (before more : List Op) (doc : ℕ) (id : Id) → IsOrderly (before ++ more) doc
        → has_id (walk before doc) id ≡ true → IsUncovered before more doc id
        → marks_at before doc id ≡ marks_at (before ++ more) doc id }
    ensures kept { (before more : List Op) (doc : ℕ) (cs : List Character)
        → IsOrderly (before ++ more) doc → All (λ c. IsUntouched before more doc c) cs
        → steps (step_of before (before ++ more) doc) cs
        ≡ all_kept (length (filter (λ c. not (is_removed (before ++ more) doc c)) cs)) }
{}

/// Steps can be made from left to right, and part by part: those of two parts are the ones beside
/// the others, where the last one is joined with the first one if it can be.
pub fn steps_are_made_part_by_part()
    ensures one_more { (step : Character → Option ChangeStep) (cs : List Character) (c : Character)
        → steps step (cs ++ c ∷ []) ≡ with_any_last (steps step cs) (step c) }
    ensures parts { (step : Character → Option ChangeStep) (cs ds : List Character)
        → steps step (cs ++ ds) ≡ followed_by (steps step cs) (steps step ds) }
{}

/// Worked rows: what changed in small texts.
pub fn worked_rows_of_changes()
    ensures typed_and_removed { changes abc (abc ++ typed_and_removed) 1
        ≡ Keep 1 ∷ put (x ∷ []) plain ∷ Keep 1 ∷ Drop 1 ∷ [] }
    ensures marked_and_typed { changes abc (abc ++ marked_and_typed) 1
        ≡ Keep 1 ∷ Mark 2 strong ∷ put (d ∷ []) strong ∷ [] }
    ensures removed_again { changes (abc ++ b_removed) (abc ++ b_removed ++ removed_again) 1
        ≡ Keep 1 ∷ Drop 1 ∷ [] }
    ensures typed_elsewhere { changes (abc ++ x_typed) (abc ++ x_typed ++ typed_elsewhere) 1
        ≡ Keep 1 ∷ put (y ∷ z ∷ []) plain ∷ Keep 3 ∷ [] }
    ensures all_at_once { changes (abc ++ all_strong) (abc ++ all_strong ++ all_at_once) 1
        ≡ Keep 1 ∷ Drop 1 ∷ put (y ∷ []) strong ∷ Mark 1 plain ∷ [] }
{}
