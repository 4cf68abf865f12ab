//! What pieces are: functions that do nothing, whose contracts are the laws.
ghost use Rattle.std.specs.Prelude.{◌≡◌, ◌≤◌, ◌<◌, ℕ, List, length, true};
ghost use Rattle.std.specs.List.{list_all};
ghost use Rattle.fixed_numbers.specs.declared.limits.TheConstants.{MAX_EDIT};
ghost use Rattle.op_model.specs.declared.edit.Change.TheVariants.{Insert};
ghost use Rattle.op_model.specs.declared.edit.Edit.{Edit};
ghost use Rattle.op_model.specs.declared.op.Op.{Op};
ghost use Rattle.op_model.specs.Made.{made};
ghost use Rattle.op_pieces.specs.Pieces.{joined, ArePieces};
ghost use Rattle.op_pieces.specs.Cutting.{are_longest, cut, is_valid};
ghost use Rattle.op_pieces.specs.Typed.{IsTyped};

/// The pieces that operations are cut into make up just these operations.
pub fn pieces_make_up_the_operations()
    ensures { (ops : List Op) → joined (cut ops) ≡ ops }
{}

/// Each of them is one operation, or a run of 2 to 256 inserts, whose counters and counts are in
/// range.
pub fn pieces_are_pieces()
    ensures { (ops : List Op) → list_all is_valid ops ≡ true → ArePieces (cut ops) }
{}

/// None of them can take the first operation of the next one.
pub fn pieces_are_longest()
    ensures { (ops : List Op) → are_longest (cut ops) ≡ true }
{}

/// What an insert of 1 to 256 characters makes is one piece, if counters and deps are in range.
pub fn an_insert_makes_one_piece()
    ensures { (ops : List Op) (replica : ℕ) (e : Edit) (at : ℕ) (text : List ℕ)
        → e.change ≡ Insert at text → 0 < length text → length text ≤ MAX_EDIT
        → list_all is_valid (made ops replica e) ≡ true → IsTyped (made ops replica e) text }
{}
