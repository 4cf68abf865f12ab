//! What a crash leaves over the turns of a daemon.
ghost use Rattle.std.specs.Prelude.{List, ℕ};
ghost use Rattle.hub_parts.specs.Flusher.{FlusherHeld};
ghost use Rattle.serve_threads.specs.Turns.{Later, StillHolds};
ghost use Rattle.shared_hub.specs.Going.{ComesBack};

use disk_trait::Disk;

/// What was settled when a turn ended stays over the later ones: a crash at any moment of a later
/// turn leaves a file whose image is a causally closed beginning of the list at that turn's end,
/// and this begins with all operations that were settled then.
pub fn what_was_settled_stays_over_turns<D: Disk>()
    ensures { (old f : FlusherHeld D) (disk back : D) (file : List ℕ)
        → (it : ComesBack D.DiskFacts old disk) → D.tells disk → Later D.DiskFacts disk f
        → (last : ComesBack D.DiskFacts f back)
        → D.left_since back (D.time f.store.disk) file
        → StillHolds it.beside.locked last.beside.locked file }
{}
