//! The peers that are linked, as JSON.
ghost use Rattle.std.specs.Prelude.{false};
ghost use Rattle.session_lines.specs.Putting.{Puts};
ghost use Rattle.session_lines.specs.Saying.{said_peer};
ghost use Rattle.session_lines.specs.Words.{said_list, said_replica};

use crate::numbered::put_part;
use crate::quoted::{comma, put, put_quoted};
use list_counts::PeerCounts;
use op_ids::ReplicaId;
use std::alloc::AllocError;
use uuid::Uuid;

/// Puts the name of a replica as a JSON string.
pub(crate) fn put_replica(replica: ReplicaId, out: &mut Vec<u8>) -> Result<(), AllocError>
    ensures { Puts result out.old out.new (said_replica replica) }
{
    let mut buffer = Uuid::encode_buffer();
    let name = Uuid::from_bytes(replica.bytes())
        .hyphenated()
        .encode_lower(&mut buffer);
    put_quoted(name, out)
}

/// Puts a peer.
fn put_peer(peer: &PeerCounts, out: &mut Vec<u8>) -> Result<(), AllocError>
    ensures { Puts result out.old out.new (said_peer peer.now) }
{
    put_part(b"{\"has\":", peer.has, b",\"lacks\":", peer.lacks, out)?;
    put(b",\"replica\":", out)?;
    put_replica(peer.replica, out)?;
    put(b"}", out)
}

/// Puts peers, and the closing bracket.
pub(crate) fn put_peers(peers: &[PeerCounts], out: &mut Vec<u8>) -> Result<(), AllocError>
    ensures { Puts result out.old out.new (said_list said_peer false peers.now) }
{
    let mut later = false;
    for peer in peers {
        put(comma(later), out)?;
        put_peer(peer, out)?;
        later = true;
    }
    put(b"]", out)
}
