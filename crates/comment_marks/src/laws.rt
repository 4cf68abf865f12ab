//! What it means that a comment stands: calls that do nothing, and whose contracts are the laws.
ghost use Rattle.std.specs.Prelude.{◌↔◌, ℕ, List, IsSome, Contains};
ghost use Rattle.std.specs.List.Sorted.{IsStrictlyIncreasing};
ghost use Rattle.op_model.specs.declared.marking.Marking.{Marking};
ghost use Rattle.comment_marks.specs.Greatest.{HasDistinctIds, IsGreatestAbout};
ghost use Rattle.comment_marks.specs.Standing.{standing};

/// Among mark operations with distinct ids a comment stands exactly where some operation is about
/// it, and the one with the greatest id of those adds it.
pub fn standing_is_by_the_greatest_id()
    ensures { (set : List Marking) (id : ℕ) → HasDistinctIds set
        → (Contains (standing set) id)
        ↔ ((m : Marking) × IsGreatestAbout set id m × IsSome m.mark) }
{}

/// The comments that stand rise strictly.
pub fn standing_rises()
    ensures { (set : List Marking) → IsStrictlyIncreasing (standing set) }
{}
