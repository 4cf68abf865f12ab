//! Who is connected.

use crate::rooms::ROOMS;
use op_ids::{Clock, ReplicaId};
use std::array;

/// A peer that has said what it has.
#[derive(Drop)]
pub(crate) struct Peer {
    pub replica: ReplicaId,
    /// The clock of what it has said that it has.
    pub its: Clock,
}

/// Who is connected: how many sessions, and the peers that have said what they have. No contract
/// speaks of it.
#[derive(Drop)]
pub(crate) struct Connected {
    pub sessions: u64,
    /// By the numbers of their links, as the rooms where those wait.
    pub peers: [Option<Peer>; ROOMS],
}

impl Connected {
    /// Nobody is connected.
    pub(crate) fn new() -> Connected {
        Connected {
            sessions: 0,
            peers: array::from_fn(|_| None),
        }
    }

    /// Notes what the peer of a link has said that it has.
    pub(crate) fn note(&mut self, link: usize, peer: Peer) {
        self.peers[link % ROOMS] = Some(peer);
    }

    /// Forgets the peer of a link.
    pub(crate) fn forget(&mut self, link: usize) {
        self.peers[link % ROOMS] = None;
    }
}
