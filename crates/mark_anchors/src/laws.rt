//! Laws of anchors: calls that do nothing, and whose contracts are the laws.
ghost use Rattle.std.specs.Prelude.{◌≡◌, ◌≢◌, ℕ, List, [], ◌∷◌, ◌++◌, Option};
ghost use Rattle.char_sequence.specs.Content.{AreRemoves, IsRun};
ghost use Rattle.mark_anchors.specs.Keeping.{kept_end_after, AreMarksOf, Kept};
ghost use Rattle.op_ids.specs.Id.{Id};
ghost use Rattle.op_model.specs.declared.op.Op.{Op};
ghost use Rattle.op_model.specs.declared.op.Body.TheVariants.{Insert, Remove};
ghost use Rattle.op_model.specs.Made.{ends_after};
ghost use Rattle.op_model.specs.Placing.{Fits};

/// Where the mark operations of a document are kept, some of them ends just after a character
/// exactly where some operation of the document does.
pub fn kept_marks_say_their_ends()
    ensures { (kept : Kept) (ops : List Op) (doc : ℕ) (id : Id) → AreMarksOf kept ops doc
        → kept_end_after kept id ≡ ends_after ops doc id }
{}

/// An insert or a remove leaves the mark operations of its document as they are.
pub fn inserts_and_removes_leave_the_marks()
    ensures insert { (kept : Kept) (ops : List Op) (doc : ℕ) (op : Op) (origin : Option Id)
        (value : ℕ) → AreMarksOf kept ops doc → Fits ops doc op → op.body ≡ Insert origin value
        → AreMarksOf kept (ops ++ op ∷ []) doc }
    ensures remove { (kept : Kept) (ops : List Op) (doc : ℕ) (op : Op) (target : Id)
        → AreMarksOf kept ops doc → Fits ops doc op → op.body ≡ Remove target
        → AreMarksOf kept (ops ++ op ∷ []) doc }
{}

/// A run of inserts, and several removes, leave the mark operations of their document as they are.
pub fn runs_and_removes_leave_the_marks()
    ensures run { (kept : Kept) (ops : List Op) (doc : ℕ) (origin : Option Id)
        (run : List (Id × ℕ)) (more : List Op) → AreMarksOf kept ops doc → IsRun origin run more
        → AreMarksOf kept (ops ++ more) doc }
    ensures removes { (kept : Kept) (ops : List Op) (doc : ℕ) (ids : List Id) (more : List Op)
        → AreMarksOf kept ops doc → AreRemoves ids more → AreMarksOf kept (ops ++ more) doc }
{}

/// An operation of another document leaves the mark operations of a document as they are.
pub fn other_documents_leave_the_marks()
    ensures { (kept : Kept) (ops : List Op) (doc : ℕ) (op : Op) → AreMarksOf kept ops doc
        → op.doc ≢ doc → AreMarksOf kept (ops ++ op ∷ []) doc }
{}
