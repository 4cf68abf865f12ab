//! Whether two parts are those of one hub.
ghost use Rattle.std.specs.Prelude.{◌↔◌, IsTrue};
ghost use Rattle.hub_parts.specs.Fitting.{FitTogether, side_of};

use crate::flusher::Flusher;
use crate::locked::Locked;
use disk_trait::Disk;

impl Locked {
    /// Whether the two fit: they are of one replica, both have a commit or neither has, the
    /// flusher's list is the operations that were taken, and those of the live root are the settled
    /// ones, or where the commit is through at least these. Takes no memory. Linear in what both
    /// hold of the lists.
    pub fn fits<D: Disk>(&self, flusher: &Flusher<D>) -> bool
        ensures { IsTrue result ↔ FitTogether self.now (side_of flusher.now) }
    {
        if flusher.store.replica() != self.replica() || flusher.due != self.has_commit() {
            return false;
        }
        let committed = flusher.store.committed();
        let settled = self.settled() as u64;
        if flusher.due && flusher.store.phase().is_idle() {
            if settled > committed {
                return false;
            }
        } else if settled != committed {
            return false;
        }
        flusher.list.equals(&self.list().front(self.begun))
    }
}
