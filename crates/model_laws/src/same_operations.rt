//! Laws of peers that have the same operations.
ghost use Rattle.std.specs.Prelude.{◌≡◌, ℕ, List};
ghost use Rattle.op_model.specs.declared.op.Op.{Op};
ghost use Rattle.op_model.specs.Causality.{HaveSameOps, IsCausallyClosed, clock_of};
ghost use Rattle.op_model.specs.Walk.{walk};
ghost use Rattle.op_model.specs.Text.{visible, text, rev};
ghost use Rattle.op_model.specs.Spans.{spans};
ghost use Rattle.model_laws.specs.Histories.{HaveOneHistory};

/// Peers that have the same operations read the same text, in whatever order the operations came:
/// the order of the characters, the visible ones, the text and the number of operations of each
/// document are equal.
pub fn same_operations_same_text()
    ensures walk { (a b : List Op) (doc : ℕ) → IsCausallyClosed a → IsCausallyClosed b
        → HaveSameOps a b → walk a doc ≡ walk b doc }
    ensures visible { (a b : List Op) (doc : ℕ) → IsCausallyClosed a → IsCausallyClosed b
        → HaveSameOps a b → visible a doc ≡ visible b doc }
    ensures text { (a b : List Op) (doc : ℕ) → IsCausallyClosed a → IsCausallyClosed b
        → HaveSameOps a b → text a doc ≡ text b doc }
    ensures rev { (a b : List Op) (doc : ℕ) → IsCausallyClosed a → IsCausallyClosed b
        → HaveSameOps a b → rev a doc ≡ rev b doc }
{}

/// Peers that have the same operations also see the same marks: the spans of each document are
/// equal.
pub fn same_operations_same_spans()
    ensures { (a b : List Op) (doc : ℕ) → IsCausallyClosed a → IsCausallyClosed b → HaveSameOps a b
        → spans a doc ≡ spans b doc }
{}

/// Peers that have the same operations have the same clock.
pub fn same_operations_same_clock()
    ensures { (a b : List Op) → IsCausallyClosed a → IsCausallyClosed b → HaveSameOps a b
        → clock_of a ≡ clock_of b }
{}

/// Peers whose clocks are equal have the same operations, where each has of every replica the first
/// operations of what that replica made. So they read the same text and spans.
pub fn equal_clocks_same_operations()
    ensures { (a b : List Op) → HaveOneHistory a b → clock_of a ≡ clock_of b → HaveSameOps a b }
{}
