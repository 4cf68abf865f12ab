//! What follows from the definitions: functions that do nothing, whose contracts are the laws.
ghost use Rattle.std.specs.Prelude.{◌≡◌, ◌⊎◌, ℕ, List, take};
ghost use Rattle.fixed_numbers.specs.declared.refusals.TheConstants.{MEMORY, READ_FAILED, SYNC_FAILED};
ghost use Rattle.op_model.specs.Machine.{Event, Answer};
ghost use Rattle.root_slots.specs.Root.{version_of};
ghost use Rattle.recovery.specs.Faults.{IsFault, number_of};
ghost use Rattle.recovery.specs.Image.{IsImage};
ghost use Rattle.recovery.specs.declared.open_fault.OpenError.{OpenError};
ghost use Rattle.locked_replica.specs.Hub.{Parts};
ghost use Rattle.locked_replica.specs.Promises.{Crashes, IsRecovered};
ghost use Rattle.locked_replica.specs.Recovery.{IsCrash, Recovers};
ghost use Rattle.locked_replica.specs.Run.{settled_behind};

use disk_trait::Disk;

/// What is opened from a file with an image that a crash leaves of a hub is what the machine's
/// crash leaves.
pub fn what_recovers_is_what_a_crash_leaves<D: Disk>()
    ensures { (hub : Parts D) (file : List ℕ) → Recovers hub file → IsCrash hub file }
{}

/// Crash safety in one law. A crash at some moment since the first `k` calls of a run (`run`,
/// `Ran`) may have left a file. Who opens it (`Hub::open`: the image of the file, or its fault) has
/// a causally closed beginning of the run's last list, with all that was settled, acknowledged and
/// told by the end of the `k` calls, and makes no id of it again; or is refused with 1, 50 or 52.
pub fn a_crash_keeps_what_was_promised<D: Disk>()
    ensures recovered { (old new hub : Parts D) (events : List (Event × Answer)) (k : ℕ)
        (file : List ℕ) → Crashes D.DiskFacts old events new k file
        → IsImage file hub.replica.replica (version_of hub.store.current.body) hub.replica.list
        → IsRecovered (settled_behind old.replica.settled (take k events)) (take k events)
        new.replica hub.replica }
    ensures refused { (old new : Parts D) (events : List (Event × Answer)) (k : ℕ)
        (file : List ℕ) (cause : OpenError) → Crashes D.DiskFacts old events new k file
        → IsFault cause file → (number_of cause ≡ MEMORY)
        ⊎ ((number_of cause ≡ READ_FAILED) ⊎ (number_of cause ≡ SYNC_FAILED)) }
{}
