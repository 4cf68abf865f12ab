//! Serving one file for as long as nobody asks for a stop.
ghost use Rattle.std.specs.Prelude.{◌≡◌, IfOk, IfErr};
ghost use Rattle.hub_parts.specs.Opening.{IsOpened};
ghost use Rattle.recovery.specs.Faults.{failures_of};
ghost use Rattle.serve_threads.specs.Turns.{Turns, IsNotOpened};

use crate::host::Host;
use crate::serving::{Served, serve_all};
use crate::sockets::Sockets;
use disk_trait::Disk;
use event_journal::Event;
use hub_parts::{Parts, open};
use recovery::OpenFault;
use shared_hub::Checkpoint;
use std::alloc::Global;

/// Serves as `serve_all` does, turn after turn: each time that no steps are left (10), the file is
/// opened anew in this process and served over the same sockets, at which whoever came meanwhile
/// has waited. It ends with the turn in which a session asked for a stop, the device failed, or
/// there was no memory to begin with. An error is that of an opening, with the disk.
pub fn serve_on<'a, D: Disk + Drop, R: Host, C: Checkpoint + Sync>(
    rt: &'a R,
    alloc: Global,
    parts: Parts<D>,
    sockets: Sockets<'a>,
    checkpoint: &'a C,
) -> Result<Served<'a, D>, OpenFault<D>>
    requires { IsOpened parts.locked parts.flusher }
    // Each turn hands the disk back as `serve_all` does, and the next one opens that.
    ensures ok { IfOk result (λ served. Turns D.DiskFacts parts.flusher served.disk) }
    ensures err { IfErr result (λ fault.
        IsNotOpened D.DiskFacts parts.flusher (failures_of fault.cause) fault.disk) }
{
    let mut served = serve_all(rt, alloc, parts, sockets, checkpoint);
    for _ in rt.forever() {
        let (disk, sockets) = match renewed(served) {
            Ok(next) => next,
            Err(ended) => return Ok(ended),
        };
        if let Some(journal) = sockets.journal {
            journal.tell(rt, &Event::OpenedAnew);
        }
        let parts = open(alloc, disk)?;
        served = serve_all(rt, alloc, parts, sockets, checkpoint);
    }
    unreachable!()
}

/// What the next turn is served over, the disk and the sockets; or how the last one ended.
fn renewed<'a, D: Disk>(served: Served<'a, D>) -> Result<(D, Sockets<'a>), Served<'a, D>>
    ensures next { IfOk result (λ turn. turn.0 ≡ served.entry.disk) }
    ensures ended { IfErr result (λ ended. ended.disk ≡ served.entry.disk) }
{
    let Served {
        disk,
        has_failed,
        has_begun,
        renewal,
    } = served;
    match renewal {
        Some(sockets) if !has_failed => Ok((disk, sockets)),
        renewal => Err(Served {
            disk,
            has_failed,
            has_begun,
            renewal,
        }),
    }
}
