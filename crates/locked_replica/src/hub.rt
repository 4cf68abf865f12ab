//! A replica and its store.
use disk_trait::Disk;
use hub_parts::{Flusher, Locked};
use std::marker::Model;

/// One peer's replica and the store that keeps it on a disk: the part that stands under a lock, and
/// the one that makes device calls, held together. Contracts see what both hold.
///
/// The type keeps that the two fit, and each part what it keeps for itself: the live root holds a
/// beginning of the replica's list, a commit under way holds a longer one which can be settled,
/// what is acknowledged and told is settled, and every file which a crash may leave has the live
/// root or the one that the commit makes.
#[derive(Drop)]
pub struct Hub<D: Disk> {
    pub(crate) locked: Locked,
    pub(crate) flusher: Flusher<D>,
}

impl<D: Disk> Model for Hub<D> {
    ghost use Rattle.hub_parts.specs.Fitting.{FitTogether, side_of};
    ghost use Rattle.locked_replica.specs.Hub.{Parts};

    ghost Value = { Parts D };

    ghost view = { λ hub. record {
      replica = hub.locked.replica;
      store = hub.flusher.store;
      failure_told = hub.locked.failure_told;
    } };

    ghost invariant = { λ hub. FitTogether hub.locked (side_of hub.flusher) };
}
