//! What follows from the definitions: functions that do nothing, whose contracts are the laws.
ghost use Rattle.std.specs.Prelude.{◌≡◌, ◌⊎◌, ℕ, List, []};
ghost use Rattle.fixed_numbers.specs.declared.refusals.TheConstants.{MEMORY};
ghost use Rattle.op_model.specs.declared.op.Op.{Op};
ghost use Rattle.root_slots.specs.Body.{root_of};
ghost use Rattle.group_commit.specs.Commit.{IsRootOf};
ghost use Rattle.group_commit.specs.Plan.{newest};
ghost use Rattle.group_commit.specs.Saved.{Saved};
ghost use Rattle.recovery.specs.declared.open_fault.OpenError.{OpenError};
ghost use Rattle.recovery.specs.Faults.{number_of, failures_of, IsFault};
ghost use Rattle.recovery.specs.Image.{IsImage};

/// The root of a new store, as `Store::init` makes it, stands for the empty list of its replica.
pub fn a_new_store_is_empty()
    ensures { (root : Saved) (replica : ℕ) (file : List ℕ) → root_of root.body ≡ record {
      format = newest;
      version = 1;
      replica = replica;
      stream_length = 0;
      operations = 0;
      tables = [];
    } → root.stream ≡ [] → IsRootOf root file → IsImage file replica 1 [] }
{}

/// A file has one image at most.
pub fn a_file_has_one_image()
    ensures { (file : List ℕ) (r s v w : ℕ) (a b : List Op) → IsImage file r v a
        → IsImage file s w b → (r ≡ s) × (v ≡ w) × (a ≡ b) }
{}

/// A file that has an image is refused only with 1, or with 50 or 52, where the device failed:
/// never with 42, 43, 45, 46 or 47.
pub fn a_file_with_an_image_has_no_fault()
    ensures { (file : List ℕ) (replica version : ℕ) (ops : List Op) (cause : OpenError)
        → IsImage file replica version ops → IsFault cause file
        → (number_of cause ≡ MEMORY) ⊎ (failures_of cause ≡ 1) }
{}
