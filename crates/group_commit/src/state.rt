//! How far a store is.
ghost use Rattle.std.specs.Prelude.{◌≡◌};
ghost use Rattle.root_slots.specs.Root.{replica_of};

use crate::phase::Phase;
use crate::store::Store;
use disk_trait::Disk;
use op_ids::ReplicaId;

impl<D: Disk> Store<D> {
    /// The replica that the file belongs to, as its live root says. Takes no memory.
    pub fn replica(&self) -> ReplicaId
        ensures { result ≡ replica_of self.now.current.body }
    {
        self.current.replica()
    }

    /// The phase of the commit under way, or `Idle`. Takes no memory.
    pub fn phase(&self) -> Phase
        ensures { result ≡ self.now.phase }
    {
        self.phase
    }

    /// Whether a device call has failed, so that the store has to be opened again. Takes no memory.
    pub fn has_failed(&self) -> bool
        ensures { result ≡ self.now.failed }
    {
        self.failed
    }
}
