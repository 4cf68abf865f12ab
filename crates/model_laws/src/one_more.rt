//! Laws of a list with one more operation.
ghost use Rattle.std.specs.Prelude.{◌≡◌, ◌≢◌, ℕ, false, List, [], ◌∷◌, ◌++◌};
ghost use Rattle.op_ids.specs.Id.{is_same};
ghost use Rattle.op_model.specs.declared.op.Op.{Op};
ghost use Rattle.op_model.specs.Causality.{MayFollow, IsCausallyClosed};
ghost use Rattle.op_model.specs.Placing.{Fits, IsOrderly};
ghost use Rattle.op_model.specs.Walk.{walk};
ghost use Rattle.op_model.specs.Text.{text, rev};
ghost use Rattle.op_model.specs.Spans.{spans};

/// A causally closed list stays so with an operation that may follow it, and every front of one is
/// closed.
pub fn closed_lists_grow()
    ensures grow { (ops : List Op) (op : Op) → IsCausallyClosed ops → MayFollow ops op
        → IsCausallyClosed (ops ++ op ∷ []) }
    ensures front { (ops more : List Op) → IsCausallyClosed (ops ++ more) → IsCausallyClosed ops }
    ensures last { (ops : List Op) (op : Op) → IsCausallyClosed (ops ++ op ∷ [])
        → MayFollow ops op }
{}

/// An orderly list stays so with an operation that fits, and every front of one is orderly.
pub fn orderly_lists_grow()
    ensures grow { (ops : List Op) (doc : ℕ) (op : Op) → IsOrderly ops doc
        → (op.doc ≡ doc → Fits ops doc op) → IsOrderly (ops ++ op ∷ []) doc }
    ensures front { (ops more : List Op) (doc : ℕ) → IsOrderly (ops ++ more) doc
        → IsOrderly ops doc }
{}

/// In a causally closed list no two operations have one id.
pub fn ids_are_used_once()
    ensures { (ops front between rest : List Op) (a b : Op) → IsCausallyClosed ops
        → ops ≡ front ++ a ∷ (between ++ b ∷ rest) → is_same a.id b.id ≡ false }
{}

/// An operation of another document changes nothing in this one.
pub fn other_documents_stay()
    ensures walk { (ops : List Op) (doc : ℕ) (op : Op) → op.doc ≢ doc
        → walk (ops ++ op ∷ []) doc ≡ walk ops doc }
    ensures text { (ops : List Op) (doc : ℕ) (op : Op) → op.doc ≢ doc
        → text (ops ++ op ∷ []) doc ≡ text ops doc }
    ensures spans { (ops : List Op) (doc : ℕ) (op : Op) → op.doc ≢ doc
        → spans (ops ++ op ∷ []) doc ≡ spans ops doc }
    ensures rev { (ops : List Op) (doc : ℕ) (op : Op) → op.doc ≢ doc
        → rev (ops ++ op ∷ []) doc ≡ rev ops doc }
{}
