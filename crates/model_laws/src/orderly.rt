//! Laws of the order in which a document's operations may come.
ghost use Rattle.std.specs.Prelude.{◌≡◌, ℕ, List, [], ◌∷◌, ◌++◌};
ghost use Rattle.op_model.specs.declared.op.Op.{Op};
ghost use Rattle.op_model.specs.Causality.{MayFollow, IsCausallyClosed};
ghost use Rattle.op_model.specs.Characters.{character_in};
ghost use Rattle.op_model.specs.Walk.{walk};
ghost use Rattle.op_model.specs.Placing.{placed, Fits, IsOrderly};

/// What causality asks of an operation is enough for its document: the characters that it names are
/// there, and its id is new. So a causally closed list can be applied to each document, one
/// operation after another.
pub fn closed_lists_are_orderly()
    ensures orderly { (ops : List Op) (doc : ℕ) → IsCausallyClosed ops → IsOrderly ops doc }
    ensures fits { (ops : List Op) (doc : ℕ) (op : Op) → MayFollow ops op → op.doc ≡ doc
        → Fits ops doc op }
{}

/// The walk with one more operation is the walk before it, with the new character behind its origin
/// and past all greater ids that follow there.
pub fn placing_gives_the_walk()
    ensures orderly { (ops : List Op) (doc : ℕ) (op : Op) → IsOrderly ops doc
        → (op.doc ≡ doc → Fits ops doc op)
        → walk (ops ++ op ∷ []) doc ≡ placed (character_in doc op) (walk ops doc) }
    ensures closed { (ops : List Op) (doc : ℕ) (op : Op) → IsCausallyClosed ops → MayFollow ops op
        → walk (ops ++ op ∷ []) doc ≡ placed (character_in doc op) (walk ops doc) }
{}
