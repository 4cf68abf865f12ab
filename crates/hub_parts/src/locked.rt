//! The part of a hub that stands under the lock.
ghost use Rattle.hub_parts.specs.Locked.{IsLocked};

use replica_core::Replica;
use std::marker::Model;

/// The part of a hub that stands under the lock: the replica, how many of its operations are
/// settled or in the commit, and whether a meeting has told a failure of the device. It names no
/// disk, and none of its calls makes a device call. Contracts see these three.
///
/// The operations that wait for the next commit are those of the list behind the taken ones. Beside
/// the list, their records stand in pieces, made with each edit, so a meeting spells nothing. The
/// type keeps that these spell what waits, that what one edit typed is one of them, that they have
/// at most 1,048,576 bytes, how many bytes the taken operations have one by one, and that the
/// settlements which are due have their places among the kept steps.
#[derive(Debug, Drop)]
pub struct Locked {
    pub(crate) replica: Replica,
    /// How many operations of the list are settled or in the commit.
    pub(crate) begun: usize,
    /// How many bytes the records of these take, one by one.
    pub(crate) begun_bytes: u64,
    pub(crate) failure_told: bool,
    /// The records of the operations that wait for the next commit.
    pub(crate) waiting: Vec<u8>,
}

impl Model for Locked {
    ghost use Rattle.hub_parts.specs.Locked.{LockedHeld, Counts, Keeps, Waits};

    ghost Value = { LockedHeld };

    ghost view = { λ l. record {
      replica = l.replica;
      begun = l.begun;
      failure_told = l.failure_told;
    } };

    ghost invariant = { λ l. Keeps (record {
      replica = l.replica;
      begun = l.begun;
      failure_told = l.failure_told;
    }) × Waits l.replica l.begun l.waiting.items × Counts l.replica l.begun l.begun_bytes };
}

impl Locked {
    /// Tells what the type keeps. Costs nothing.
    pub fn kept(&self)
        ensures { IsLocked self.now }
    {
        // For the proof: a field read tells what this part keeps, and `list` what its replica does.
        let _list = self.replica.list();
    }
}
