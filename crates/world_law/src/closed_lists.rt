//! Causally closed lists: each operation has an id and a place of its own.
ghost use Rattle.std.specs.Prelude.{◌≡◌, ℕ, ◌<◌, true, List, None, take};
ghost use Rattle.op_ids.specs.Clock.{count_of, is_ready};
ghost use Rattle.op_model.specs.declared.op.Op.{Op};
ghost use Rattle.op_model.specs.Causality.{clock_of, first_failed};
ghost use Rattle.op_model.specs.Causality.{HasOp, IsCausallyClosed, MayFollow};
ghost use Rattle.world_law.specs.Counts.{own_count};

/// The first `n` operations of a causally closed list are one.
pub fn fronts_of_closed_lists_are_closed()
    ensures { (ops : List Op) (n : ℕ) → IsCausallyClosed ops → IsCausallyClosed (take n ops) }
{}

/// An operation that is ready, and of which no check of a merge fails, may follow.
pub fn passed_operations_may_follow()
    ensures { (ops : List Op) (op : Op) → is_ready (clock_of ops) op.id.replica op.deps ≡ true
        → first_failed ops op ≡ None → MayFollow ops op }
{}

/// In a causally closed list an id has one operation, and so has each number of a replica's own
/// operations that one depends on. For each such number below the clock's there is one.
pub fn an_operation_has_one_place()
    ensures by_id { (ops : List Op) (x y : Op) → IsCausallyClosed ops → HasOp ops x → HasOp ops y
        → x.id ≡ y.id → x ≡ y }
    ensures by_count { (ops : List Op) (x y : Op) → IsCausallyClosed ops → HasOp ops x → HasOp ops y
        → x.id.replica ≡ y.id.replica → own_count x ≡ own_count y → x ≡ y }
    ensures counted { (ops : List Op) (op : Op) → IsCausallyClosed ops → HasOp ops op
        → own_count op < count_of (clock_of ops) op.id.replica }
    ensures each { (ops : List Op) (replica n : ℕ) → IsCausallyClosed ops
        → n < count_of (clock_of ops) replica
        → (op : Op) × HasOp ops op × (op.id.replica ≡ replica) × (own_count op ≡ n) }
{}
