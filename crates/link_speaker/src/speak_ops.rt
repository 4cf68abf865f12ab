//! Operations, to one that lacks them.
ghost use Rattle.std.specs.Prelude.{IfOk, IfErr};
ghost use Rattle.link_speaker.specs.Speaking.{SpeaksOps, StopsBeforeOps};

use crate::line::Line;
use crate::peer::Peer;
use crate::speak_error::SpeakError;
use std::alloc::Global;

/// Says the operations that the peer tells for the line's base, all in one frame. Answers whether
/// there were any.
pub(crate) fn speak_ops<P: Peer, L: Line>(
    alloc: Global,
    peer: &mut P,
    line: &mut L,
) -> Result<bool, SpeakError>
    ensures ok { IfOk result (SpeaksOps P.Peer L.Line peer.old peer.new line.old line.new) }
    ensures err { IfErr result (StopsBeforeOps P.Peer L.Line peer.old peer.new line.old line.new) }
{
    let Some(base) = line.base(alloc)? else {
        return Ok(false);
    };
    let ops = peer.tell(&base)?;
    if ops.is_empty() {
        return Ok(false);
    }
    line.say_ops(&ops)?;
    Ok(true)
}
