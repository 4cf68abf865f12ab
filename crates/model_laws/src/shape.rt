//! Laws of the walk through the insertion tree.
ghost use Rattle.std.specs.Prelude.{◌≡◌, ℕ, ◌≤◌, true, List, ◌∷◌, ◌++◌, Option, Some};
ghost use Rattle.op_ids.specs.Id.{Id};
ghost use Rattle.op_model.specs.declared.op.Op.{Op};
ghost use Rattle.op_model.specs.declared.character.Character.{Character};
ghost use Rattle.op_model.specs.Causality.{IsCausallyClosed};
ghost use Rattle.op_model.specs.Characters.{characters};
ghost use Rattle.op_model.specs.Walk.{walk, below, children, families, times, IsFalling};
ghost use Rattle.op_model.specs.Placing.{has_id, IsOrderly};
ghost use Rattle.model_laws.specs.IsWalk.{IsWalk};

/// The walk goes depth first, each parent before its children, siblings in falling order of id. It
/// is the only list of the document's inserts that does.
pub fn the_walk_is_depth_first()
    ensures is_walk { (ops : List Op) (doc : ℕ) → IsCausallyClosed ops
        → IsWalk (characters ops doc) (walk ops doc) }
    ensures only { (ops : List Op) (doc : ℕ) (cs : List Character) → IsCausallyClosed ops
        → IsWalk (characters ops doc) cs → cs ≡ walk ops doc }
    ensures is_walk_of_orderly { (ops : List Op) (doc : ℕ) → IsOrderly ops doc
        → IsWalk (characters ops doc) (walk ops doc) }
    ensures only_of_orderly { (ops : List Op) (doc : ℕ) (cs : List Character) → IsOrderly ops doc
        → IsWalk (characters ops doc) cs → cs ≡ walk ops doc }
{}

/// What lies below a parent is its children's families, one after another: each child, and right
/// behind it what lies below the child. The children stand in falling order of id. The walk is what
/// lies below the beginning of the text.
pub fn the_walk_is_families()
    ensures families { (ops : List Op) (doc : ℕ) (parent : Option Id) → IsCausallyClosed ops
        → below parent (characters ops doc)
        ≡ families (characters ops doc) (children parent (characters ops doc)) }
    ensures falling { (ops : List Op) (doc : ℕ) (parent : Option Id) → IsCausallyClosed ops
        → IsFalling (children parent (characters ops doc)) }
    ensures families_of_orderly { (ops : List Op) (doc : ℕ) (parent : Option Id) → IsOrderly ops doc
        → below parent (characters ops doc)
        ≡ families (characters ops doc) (children parent (characters ops doc)) }
    ensures falling_of_orderly { (ops : List Op) (doc : ℕ) (parent : Option Id) → IsOrderly ops doc
        → IsFalling (children parent (characters ops doc)) }
{}

/// The walk has the inserts of the document, each of them once.
pub fn the_walk_has_each_insert_once()
    ensures members { (ops : List Op) (doc : ℕ) (id : Id) → IsCausallyClosed ops
        → times id (walk ops doc) ≡ times id (characters ops doc) }
    ensures once { (ops : List Op) (doc : ℕ) (id : Id) → IsCausallyClosed ops
        → times id (walk ops doc) ≤ 1 }
    ensures members_of_orderly { (ops : List Op) (doc : ℕ) (id : Id) → IsOrderly ops doc
        → times id (walk ops doc) ≡ times id (characters ops doc) }
    ensures once_of_orderly { (ops : List Op) (doc : ℕ) (id : Id) → IsOrderly ops doc
        → times id (walk ops doc) ≤ 1 }
{}

/// Each character stands behind its origin, in the walk of any list of operations.
pub fn the_walk_has_parents_first()
    ensures { (ops : List Op) (doc : ℕ) (front rest : List Character) (c : Character) (origin : Id)
        → walk ops doc ≡ front ++ c ∷ rest → c.origin ≡ Some origin → has_id front origin ≡ true }
{}
