//! What an order over one disk does, over any disk, reader and writers: a session has a `Desk`.
ghost use Rattle.std.specs.Prelude.{◌≡◌, OnOk, OnErr};
ghost use Rattle.std.specs.Io.KnownBytes.{Appends};
ghost use Rattle.byte_streams.specs.Fronts.{AppendsFront};
ghost use Rattle.session_lines.specs.Saying.{said_done};
ghost use Rattle.store_orders.specs.Performed.{Performs, Makes, Edits, ServesAndStops};
ghost use Rattle.store_orders.specs.Performed.{end_of, first_replica};
ghost use Rattle.command_syntax.specs.declared.store_order.StoreOrder.TheVariants.{InMemory};

use crate::ended::Ended;
use crate::fault::Fault;
use crate::printing::print;
use command_syntax::StoreOrder;
use disk_trait::Disk;
use group_commit::Store;
use locked_replica::Hub;
use op_ids::ReplicaId;
use session_lines::{Answer, Command, say};
use session_threads::{Desk, HubDesk, serve_lines};
use std::alloc::Global;
use std::io::{Read, Write};

/// The number of the session that is served alone: its edits are the steps of this one.
pub(crate) const SESSION: u64 = 1;

/// Does what an order asks for, and gives the disk, with what ended it if that is a refusal.
pub fn perform<D: Disk, R: Read + Drop, W: Write>(
    alloc: Global,
    order: &StoreOrder<'_>,
    disk: D,
    input: R,
    output: &mut W,
) -> Ended<D>
    ensures { Performs D.DiskFacts order.now (R.remaining input) disk result.disk
        (W.contents output.old) (W.contents output.new) result.end }
{
    match *order {
        StoreOrder::InMemory => in_memory(alloc, disk, input, output),
        StoreOrder::Init { replica, .. } => init(alloc, disk, replica, output),
        StoreOrder::Edit { .. } => edit(alloc, disk, input, output),
    }
}

/// Makes a store of the first replica, and then serves a session over it.
fn in_memory<D: Disk, R: Read + Drop, W: Write>(
    alloc: Global,
    disk: D,
    input: R,
    output: &mut W,
) -> Ended<D>
    ensures { Performs D.DiskFacts InMemory (R.remaining input) disk result.disk
        (W.contents output.old) (W.contents output.new) result.end }
{
    let made = init(alloc, disk, first_replica(), output);
    match made.end {
        Ok(()) => edit(alloc, made.disk, input, output),
        Err(fault) => Ended {
            disk: made.disk,
            end: Err(fault),
        },
    }
}

/// Makes an empty store.
fn init<D: Disk, W: Write>(alloc: Global, disk: D, replica: ReplicaId, output: &mut W) -> Ended<D>
    ensures { Makes D.DiskFacts disk result.disk (W.contents output.old) (W.contents output.new)
        result.end replica }
{
    match Store::init(alloc, disk, replica) {
        Ok(store) => Ended {
            disk: store.into_disk(),
            end: print_done(alloc, output),
        },
        Err(fault) => Ended {
            disk: fault.disk,
            end: Err(Fault::from(fault.cause)),
        },
    }
}

/// Prints that a store was made.
fn print_done<W: Write>(alloc: Global, output: &mut W) -> Result<(), Fault>
    ensures ok { OnOk result (Appends (W.contents output.old) (W.contents output.new) said_done) }
    ensures err { OnErr result
        (AppendsFront (W.contents output.old) (W.contents output.new) said_done) }
{
    let mut line = Vec::new(alloc);
    say(alloc, &Answer::Done, &mut line)?;
    print(&line, output)
}

/// Serves one session. The end of its input acts as a stop.
fn edit<D: Disk, R: Read + Drop, W: Write>(
    alloc: Global,
    disk: D,
    input: R,
    output: &mut W,
) -> Ended<D>
    ensures { Edits D.DiskFacts disk result.disk (W.contents output.old) (W.contents output.new)
        result.end (R.remaining input) }
{
    match Hub::open(alloc, disk) {
        Ok(hub) => {
            let mut desk = HubDesk::new(hub, SESSION);
            let served = serve(alloc, &mut desk, input, output);
            let hub = desk.into_hub();
            let end = end_of(hub.has_failed(), served);
            Ended {
                disk: hub.into_disk(),
                end,
            }
        }
        Err(fault) => Ended {
            disk: fault.disk,
            end: Err(Fault::from(fault.cause)),
        },
    }
}

/// What ends a session: a device that failed is told whatever became of the stream, since the store
/// has to be opened again.
fn end_of(has_failed: bool, served: Result<(), Fault>) -> Result<(), Fault>
    ensures { result ≡ end_of has_failed served }
{
    if has_failed {
        Err(Fault::Failed)
    } else {
        served
    }
}

/// Serves one session, and then settles all that it left.
fn serve<D: Disk, R: Read + Drop, W: Write>(
    alloc: Global,
    desk: &mut HubDesk<D>,
    input: R,
    output: &mut W,
) -> Result<(), Fault>
    ensures { ServesAndStops D.DiskFacts desk.old desk.new (R.remaining input)
        (W.contents output.old) (W.contents output.new) result }
{
    let mut reader = input;
    let served = serve_lines(alloc, &mut reader, output, desk);
    let _ = desk.serve(alloc, Command::Stop);
    match served {
        Ok(()) => Ok(()),
        Err(error) => Err(Fault::from(error)),
    }
}

/// The replica of a store in memory, `00000000-0000-4000-8000-000000000001`.
fn first_replica() -> ReplicaId
    ensures { result ≡ first_replica }
{
    match ReplicaId::read([0, 0, 0, 0, 0, 0, 0x40, 0, 0x80, 0, 0, 0, 0, 0, 0, 1]) {
        Some(replica) => replica,
        None => unreachable!(),
    }
}
