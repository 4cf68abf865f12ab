//! The daemon over a file and sockets, and the thread that writes its events.
ghost use Rattle.std.specs.Prelude.{IfOk};
ghost use Rattle.hub_parts.specs.Opening.{IsOpened};

use crate::error_way::ErrorWay;
use crate::looking::Purpose;
use crate::origins::origins;
use crate::refusing::{Refused, of_file, of_path};
use crate::sockets::open_sockets;
use crate::telling::{tell_end, tell_listening};
use command_syntax::ServeOrder;
use disk_trait::{Disk, FileDisk};
use event_journal::{Journal, Telling};
use hub_parts::{Parts, open};
use serve_threads::{Served, Sockets, serve_on};
use shared_hub::NoCheckpoint;
use std::fs::File;
use std::io::{IsTerminal, Write};
use std::net::{Net, TcpListener, TcpStream};
use std::rt::{Clock, Files};
use std::sync::Wait;
use std::thread;
use std::thread::Threads;
use store_orders::{Fault, print};

/// What is printed once all ports listen.
const READY: &[u8] = b"{\"ok\":true}\n";

/// Serves the sessions and the peers of a file. It tells of itself on standard error: all events
/// with `--log`, a start that failed too; on a terminal else where it listens and its end; and else
/// nothing. With `--ready` it prints a line once all ports listen. The thread that hands its lines
/// on has ended too when this returns.
pub fn serve<
    'a,
    R: Files<File = File>
        + Net<Listener = TcpListener, Stream = TcpStream>
        + AllocGlobal
        + Clock
        + Wait
        + Threads
        + Sync,
    W: Write,
    F: Write + IsTerminal + Copy + Send + Drop + 'static,
>(rt: &R, order: ServeOrder<'a>, output: &mut W, faults: &F) -> Result<(), Refused<'a>> {
    let Some(telling) = telling(order, faults) else {
        return serve_order(rt, order, None, output).end;
    };
    let journal = Journal::new(rt.alloc(), telling);
    serve_and_tell(rt, order, &journal, output, *faults)
}

/// What is told of a daemon, if anything is.
fn telling<F: IsTerminal>(order: ServeOrder<'_>, faults: &F) -> Option<Telling> {
    if order.logs {
        Some(Telling::All)
    } else if faults.is_terminal() {
        Some(Telling::Brief)
    } else {
        None
    }
}

/// Serves what an order names, while a thread hands on what the journal is told.
fn serve_and_tell<
    'a,
    R: Files<File = File>
        + Clock
        + Wait
        + Threads
        + Sync
        + Net<Listener = TcpListener, Stream = TcpStream>
        + AllocGlobal,
    W: Write,
    F: Write + Send + Drop + 'static,
>(
    rt: &R,
    order: ServeOrder<'a>,
    journal: &Journal,
    output: &mut W,
    errors: F,
) -> Result<(), Refused<'a>> {
    thread::scope(thread::scope_env(), rt, move |scope| {
        // Where there is no thread, nothing is told.
        let _ = scope.spawn(move || hand_on(rt, journal, errors));
        let ran = serve_order(rt, order, Some(journal), output);
        if order.logs || ran.has_listened {
            tell_end(rt, journal, ran.end);
        }
        journal.end(rt);
        ran.end
    })
}

/// Hands on what the journal is told, to its end; nothing if there is no way to the errors.
fn hand_on<R: Wait + Clock + Threads + Net, F: Write + Send + Drop + 'static>(
    rt: &R,
    journal: &Journal,
    errors: F,
) {
    if let Ok(mut way) = ErrorWay::open(rt, errors) {
        journal.write_all(rt, &mut way);
        way.end();
    }
}

/// What became of an order.
#[derive(Clone, Copy, Drop)]
struct Ran<'a> {
    end: Result<(), Refused<'a>>,
    /// Whether a file was served.
    has_listened: bool,
}

impl<'a> Ran<'a> {
    /// Nothing was served.
    fn not(refused: Refused<'a>) -> Ran<'a> {
        Ran {
            end: Err(refused),
            has_listened: false,
        }
    }
}

/// Serves what an order names to the daemon's end. Faults come in this order: an origin that is
/// none (4); the file can't be opened (54); it is no store, the device fails or memory is refused
/// (42 to 47, 50, 52, 1); a socket can't be opened or the peer can't be joined (70); the device
/// failed while it served, or what was applied couldn't be settled (9); or those of an opening,
/// where the file is opened anew.
fn serve_order<
    'a,
    'b,
    R: Files<File = File>
        + Clock
        + Wait
        + Threads
        + Sync
        + Net<Listener = TcpListener, Stream = TcpStream>
        + AllocGlobal,
    W: Write,
>(rt: &R, order: ServeOrder<'a>, journal: Option<&'b Journal>, output: &mut W) -> Ran<'a> {
    let origins = match origins(rt.alloc(), order) {
        Ok(origins) => origins,
        Err(refused) => return Ran::not(refused),
    };
    let parts = match open_file(rt, order.file) {
        Ok(parts) => parts,
        Err(fault) => return Ran::not(of_path(fault, order.file, Purpose::Writing)),
    };
    let sockets = match open_sockets(rt, order) {
        Ok(sockets) => Sockets {
            origins: origins.as_slice(),
            journal,
            ..sockets
        },
        Err(refused) => return Ran::not(refused),
    };
    let end = serve_opened(rt, order, parts, sockets, output);
    Ran {
        end: of_file(end, order.file, Purpose::Writing),
        has_listened: true,
    }
}

/// Opens a file for a daemon.
fn open_file<R: Files<File = File> + AllocGlobal>(
    rt: &R,
    file: &str,
) -> Result<Parts<FileDisk>, Fault>
    ensures { IfOk result (λ parts. IsOpened parts.locked parts.flusher) }
{
    let Ok(disk) = FileDisk::open(rt, file) else {
        return Err(Fault::OpenFailed);
    };
    match open(rt.alloc(), disk) {
        Ok(parts) => Ok(parts),
        Err(fault) => Err(Fault::from(fault.cause)),
    }
}

/// Serves a file that is open over its sockets, and tells of its beginning. `Stream` (71) where it
/// can't print that it is ready.
fn serve_opened<
    'a,
    R: Clock
        + Wait
        + Threads
        + Sync
        + Net<Listener = TcpListener, Stream = TcpStream>
        + AllocGlobal,
    W: Write,
>(
    rt: &'a R,
    order: ServeOrder<'_>,
    parts: Parts<FileDisk>,
    sockets: Sockets<'a>,
    output: &mut W,
) -> Result<(), Fault>
    requires { IsOpened parts.locked parts.flusher }
{
    if let Some(journal) = sockets.journal {
        tell_listening(rt, order, &parts, journal);
    }
    if order.tells_ready {
        print(READY, output)?;
    }
    match serve_on(rt, rt.alloc(), parts, sockets, &NoCheckpoint) {
        Ok(served) => end_of(&served),
        Err(fault) => Err(Fault::from(fault.cause)),
    }
}

/// What ended a daemon, if it is a refusal.
fn end_of<D: Disk>(served: &Served<D>) -> Result<(), Fault> {
    if !served.has_begun {
        Err(Fault::Memory)
    } else if served.has_failed {
        Err(Fault::Failed)
    } else {
        Ok(())
    }
}
