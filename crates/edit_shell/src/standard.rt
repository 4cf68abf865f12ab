//! The program over its command line, files and standard streams.

use crate::asking::{REFUSED, ask};
use crate::held::hold_closed_streams;
use crate::importing::import_into;
use crate::looking::Purpose;
use crate::refusing::{ended, of_file};
use crate::serving::serve;
use command_syntax::{BadPort, Order, StoreOrder};
use command_words::{OrderFault, order};
use disk_trait::{Disk, FileDisk, MemDisk};
use std::fs::File;
use std::io::{ErrorKind, IsTerminal, Write};
use std::net::{Net, TcpListener, TcpStream};
use std::rt::{Clock, Env, Files};
use std::sync::Wait;
use std::thread::Threads;
use std::{env, io};
use store_orders::{Ended, Fault, check, dump, export_from, list, perform, print_versions};

/// The bytes of a store in memory.
const ROOM: usize = 1_048_576;

/// The device calls of a store in memory.
const CALLS: usize = 1_024;

/// The file that stands for a standard stream which the program was started without.
const NOTHING: &str = "/dev/null";

/// Runs the program, and gives its exit status: 0; 1 where a refusal ended it, which is written as
/// `peritext: NUMBER WORD`, and explained on a terminal; 2 with the text of `clap`, or that of a
/// bad port, where the words aren't those of an order.
pub fn run<
    R: Env
        + Files<File = File>
        + Input
        + Clock
        + Wait
        + Threads
        + Sync
        + Net<Listener = TcpListener, Stream = TcpStream>
        + AllocGlobal,
    W: Write,
    F: Write + IsTerminal + Copy + Send + Drop + 'static,
>(rt: &R, output: &mut W, faults: &mut F) -> u8 {
    let alloc = rt.alloc();
    let given: io::Result<Vec<String>> = match env::args(rt) {
        Ok(given) => given.collect(alloc).map_err(io::Error::from),
        Err(error) => Err(error),
    };
    let given = match given {
        Ok(given) => given,
        Err(error) => return no_words(rt, &error, faults),
    };
    match given
        .iter()
        .map(|word| word.as_str())
        .collect::<Vec<&str>>(alloc)
    {
        Ok(words) => run_words(rt, &words, output, faults),
        Err(_) => refuse(rt, Fault::Memory, faults),
    }
}

/// Tells that the words can't be read.
fn no_words<R: Files<File = File> + AllocGlobal, F: Write + IsTerminal>(
    rt: &R,
    error: &io::Error,
    faults: &mut F,
) -> u8 {
    if error.kind() == ErrorKind::InvalidData {
        let _ = faults.write_all(b"error: invalid UTF-8 was detected in one or more arguments\n");
        return 2;
    }
    refuse(rt, Fault::Memory, faults)
}

/// Runs the program for these words.
fn run_words<
    R: Files<File = File>
        + Input
        + Clock
        + Wait
        + Threads
        + Sync
        + Net<Listener = TcpListener, Stream = TcpStream>
        + AllocGlobal,
    W: Write,
    F: Write + IsTerminal + Copy + Send + Drop + 'static,
>(rt: &R, words: &[&str], output: &mut W, faults: &mut F) -> u8 {
    match order(rt.alloc(), words) {
        Ok(order) => run_order(rt, &order, output, faults),
        Err(OrderFault::Usage(error)) => usage(&error, output, faults),
        Err(OrderFault::Port(port)) => bad_port(port, faults),
        Err(OrderFault::Field) => refuse(rt, Fault::Field, faults),
        Err(OrderFault::Memory) => refuse(rt, Fault::Memory, faults),
    }
}

/// Writes the text of `clap` where it goes: help with status 0, and a fault with 2.
fn usage<W: Write, F: Write>(error: &clap::Error, output: &mut W, faults: &mut F) -> u8 {
    if error.use_stderr() {
        let _ = write!(faults, "{error}");
        return 2;
    }
    let _ = write!(output, "{error}");
    0
}

/// Tells of a bad port as `clap` tells of a bad value.
fn bad_port<F: Write>(port: BadPort<'_>, faults: &mut F) -> u8 {
    let _ = write!(
        faults,
        "error: {port}\n\nFor more information, try '--help'.\n"
    );
    2
}

/// Tells of a refusal that is about nothing outside the program.
fn refuse<R: Files<File = File> + AllocGlobal, F: Write + IsTerminal>(
    rt: &R,
    fault: Fault,
    faults: &mut F,
) -> u8 {
    tell(rt, Err(fault), "", Purpose::Reading, faults)
}

/// Tells how a run over the file of this path ended.
fn tell<R: Files<File = File> + AllocGlobal, F: Write + IsTerminal>(
    rt: &R,
    end: Result<(), Fault>,
    path: &str,
    purpose: Purpose,
    faults: &mut F,
) -> u8 {
    ended(rt, of_file(end, path, purpose), faults)
}

/// Does what an order asks for. No file or socket gets the descriptor of a standard stream.
fn run_order<
    R: Files<File = File>
        + Input
        + Clock
        + Wait
        + Threads
        + Sync
        + Net<Listener = TcpListener, Stream = TcpStream>
        + AllocGlobal,
    W: Write,
    F: Write + IsTerminal + Copy + Send + Drop + 'static,
>(rt: &R, order: &Order<'_>, output: &mut W, faults: &mut F) -> u8 {
    match hold_closed_streams(rt) {
        Ok(_held) => run_held(rt, order, output, faults),
        Err(_) => tell(
            rt,
            Err(Fault::OpenFailed),
            NOTHING,
            Purpose::Reading,
            faults,
        ),
    }
}

/// Does what an order asks for, where no file or socket that is opened can be taken for a stream.
fn run_held<
    R: Files<File = File>
        + Input
        + Clock
        + Wait
        + Threads
        + Sync
        + Net<Listener = TcpListener, Stream = TcpStream>
        + AllocGlobal,
    W: Write,
    F: Write + IsTerminal + Copy + Send + Drop + 'static,
>(rt: &R, order: &Order<'_>, output: &mut W, faults: &mut F) -> u8 {
    match order {
        Order::Store(order) => run_on_disk(rt, order, output, faults),
        Order::Dump(order) => looked(rt, dump(rt, *order, output), order.file, faults),
        Order::List(order) => looked(rt, list(rt, *order, output), order.file, faults),
        Order::Check(order) => looked(rt, check(rt, *order, output), order.file, faults),
        Order::Export(order) => looked(rt, export_from(rt, *order, output), order.file, faults),
        Order::History(order) => looked(rt, print_versions(rt, *order, output), order.file, faults),
        Order::Import(order) => {
            let end = import_into(rt, *order, output);
            tell_import(rt, end, order.file, faults)
        }
        Order::Serve(order) => {
            let end = serve(rt, *order, output, &*faults);
            ended(rt, end, faults)
        }
        Order::Ask(order) => ask(rt, *order, output, faults),
    }
}

/// Tells how a look at a file ended.
fn looked<R: Files<File = File> + AllocGlobal, F: Write + IsTerminal>(
    rt: &R,
    end: Result<(), Fault>,
    file: &str,
    faults: &mut F,
) -> u8 {
    tell(rt, end, file, Purpose::Reading, faults)
}

/// Does what an order over one disk asks for, over the disk that it names.
fn run_on_disk<R: Files<File = File> + Input + AllocGlobal, W: Write, F: Write + IsTerminal>(
    rt: &R,
    order: &StoreOrder<'_>,
    output: &mut W,
    faults: &mut F,
) -> u8 {
    match *order {
        StoreOrder::InMemory => {
            let end = run_in_memory(rt, order, output);
            tell(rt, end, "the store in memory", Purpose::Writing, faults)
        }
        StoreOrder::Init { file, .. } => {
            let end = run_init(rt, order, file, output);
            tell(rt, end, file, Purpose::Making, faults)
        }
        StoreOrder::Edit { file } => {
            let end = run_on_file(rt, order, file, output);
            tell(rt, end, file, Purpose::Writing, faults)
        }
    }
}

/// Does what an order asks for over a store in memory.
fn run_in_memory<R: Input + AllocGlobal, W: Write>(
    rt: &R,
    order: &StoreOrder<'_>,
    output: &mut W,
) -> Result<(), Fault> {
    match MemDisk::new(rt.alloc(), ROOM, CALLS) {
        Ok(disk) => run_on(rt, order, disk, output).end,
        Err(_) => Err(Fault::Memory),
    }
}

/// Makes a store in a file, where that can be opened. One that wasn't there before is removed
/// where this fails.
fn run_init<R: Files<File = File> + Input + AllocGlobal, W: Write>(
    rt: &R,
    order: &StoreOrder<'_>,
    path: &str,
    output: &mut W,
) -> Result<(), Fault> {
    match FileDisk::create(rt, path) {
        Ok(disk) => {
            let Ended { disk, end } = run_on(rt, order, disk, output);
            if end.is_err() {
                disk.discard(rt, path);
            }
            end
        }
        Err(_) => Err(Fault::OpenFailed),
    }
}

/// Does what an order asks for over a file, where it can be opened.
fn run_on_file<R: Files<File = File> + Input + AllocGlobal, W: Write>(
    rt: &R,
    order: &StoreOrder<'_>,
    path: &str,
    output: &mut W,
) -> Result<(), Fault> {
    match FileDisk::open(rt, path) {
        Ok(disk) => run_on(rt, order, disk, output).end,
        Err(_) => Err(Fault::OpenFailed),
    }
}

/// Tells how an import ended: with status 1 also where an edit was refused, which was printed.
fn tell_import<R: Files<File = File> + AllocGlobal, F: Write + IsTerminal>(
    rt: &R,
    end: Result<bool, Fault>,
    path: &str,
    faults: &mut F,
) -> u8 {
    match end {
        Ok(true) => 0,
        Ok(false) => REFUSED,
        Err(fault) => tell(rt, Err(fault), path, Purpose::Writing, faults),
    }
}

/// Does what an order asks for over a disk.
fn run_on<R: Input + AllocGlobal, D: Disk, W: Write>(
    rt: &R,
    order: &StoreOrder<'_>,
    disk: D,
    output: &mut W,
) -> Ended<D> {
    perform(rt.alloc(), order, disk, rt.reader(), output)
}
