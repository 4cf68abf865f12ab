//! Laws of operations that come later.
ghost use Rattle.std.specs.Prelude.{◌≡◌, ℕ, ◌<◌, true, not, List, ◌++◌, filter};
ghost use Rattle.op_ids.specs.Id.{Id};
ghost use Rattle.op_model.specs.declared.op.Op.{Op};
ghost use Rattle.op_model.specs.Characters.{characters};
ghost use Rattle.op_model.specs.Walk.{walk};
ghost use Rattle.op_model.specs.Places.{index_of};
ghost use Rattle.op_model.specs.Placing.{has_id, IsOrderly};

/// Later operations only put characters between those that are there: without the characters that
/// came since, the walk of now is the walk of before. So each character of before is there now, and
/// any two of them stand in the same order. A character of now was there before unless it was
/// inserted since.
pub fn characters_keep_their_order()
    ensures walk { (before more : List Op) (doc : ℕ) → IsOrderly (before ++ more) doc
        → walk before doc
        ≡ filter (λ c. has_id (walk before doc) c.id) (walk (before ++ more) doc) }
    ensures there { (before more : List Op) (doc : ℕ) (id : Id) → IsOrderly (before ++ more) doc
        → has_id (walk before doc) id ≡ true → has_id (walk (before ++ more) doc) id ≡ true }
    ensures order { (before more : List Op) (doc : ℕ) (a b : Id) → IsOrderly (before ++ more) doc
        → has_id (walk before doc) a ≡ true → has_id (walk before doc) b ≡ true
        → index_of a (walk before doc) < index_of b (walk before doc)
        → index_of a (walk (before ++ more) doc) < index_of b (walk (before ++ more) doc) }
    ensures since { (before more : List Op) (doc : ℕ) (id : Id) → IsOrderly (before ++ more) doc
        → has_id (walk (before ++ more) doc) id ≡ true
        → has_id (walk before doc) id ≡ not (has_id (characters more doc) id) }
{}
