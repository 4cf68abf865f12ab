//! The peers that are linked.
ghost use Rattle.std.specs.Prelude.{◌≡◌};

use list_counts::PeerCounts;
use std::marker::Model;

/// The peers that are linked. Contracts see the list of them.
#[derive(Drop)]
pub struct PeerList {
    peers: Vec<PeerCounts>,
}

impl Model for PeerList {
    ghost use Rattle.std.specs.Prelude.{List};
    ghost use Rattle.list_counts.specs.declared.peer_counts.PeerCounts.{PeerCounts};

    ghost Value = { List PeerCounts };

    ghost view = { λ p. p.peers.items };
}

impl From<Vec<PeerCounts>> for PeerList {
    ghost from_gives = { λ peers result. result ≡ peers.items };

    fn from(peers: Vec<PeerCounts>) -> PeerList {
        PeerList { peers }
    }
}

impl PeerList {
    /// The peers, in no special order.
    pub fn as_slice(&self) -> &[PeerCounts]
        ensures { result.now ≡ self.now }
    {
        &self.peers
    }
}
