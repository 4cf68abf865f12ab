//! Asking a daemon over its port.

use crate::refusing::{About, Refused, ended};
use crate::sockets::HOST;
use command_syntax::AskOrder;
use daemon_asking::{AskFault, ask_all};
use std::alloc::{AllocError, Global};
use std::fs::File;
use std::io::{BufRead, BufReader, ErrorKind, IsTerminal, Write};
use std::net::{Net, TcpListener, TcpStream};
use std::rt::Files;
use store_orders::{Fault, Sentence};

/// The exit status if an answer is a refusal, which was printed.
pub const REFUSED: u8 = 1;

/// Asks the daemon at a port the lines of an order, or else those of standard input, and prints its
/// answers. Gives the exit status: 1 also where an answer is a refusal.
pub fn ask<
    R: Files<File = File> + Input + Net<Listener = TcpListener, Stream = TcpStream> + AllocGlobal,
    W: Write,
    F: Write + IsTerminal,
>(rt: &R, order: AskOrder<'_>, output: &mut W, faults: &mut F) -> u8 {
    match ask_lines(rt, order, output) {
        Ok(true) => 0,
        Ok(false) => REFUSED,
        Err(refused) => ended(rt, Err(refused), faults),
    }
}

/// Asks what an order has, and answers whether no answer was a refusal.
fn ask_lines<R: Input + Net<Listener = TcpListener, Stream = TcpStream> + AllocGlobal, W: Write>(
    rt: &R,
    order: AskOrder<'_>,
    output: &mut W,
) -> Result<bool, Refused<'static>> {
    let stream = connect(rt, order.port)?;
    let lines = order.lines.as_slice();
    let asked = if lines.is_empty() {
        ask_over(rt.alloc(), &stream, rt.reader(), output)
    } else {
        match joined(rt.alloc(), lines) {
            Ok(given) => ask_over(rt.alloc(), &stream, given.as_slice(), output),
            Err(_) => Err(AskFault::Memory),
        }
    };
    match asked {
        Ok(are_ok) => Ok(are_ok),
        Err(fault) => Err(refused(order.port, fault)),
    }
}

/// Asks over a connection what comes from a reader.
fn ask_over<I: BufRead + Drop, W: Write>(
    alloc: Global,
    stream: &TcpStream,
    requests: I,
    output: &mut W,
) -> Result<bool, AskFault> {
    let mut requests = requests;
    let mut daemon = stream;
    match BufReader::new(alloc, stream) {
        Ok(answers) => {
            let mut answers = answers;
            ask_all(alloc, &mut requests, &mut daemon, &mut answers, output)
        }
        Err(_) => Err(AskFault::Memory),
    }
}

/// A connection to the daemon at a port: each line goes out at once.
fn connect<R: Net<Listener = TcpListener, Stream = TcpStream>>(
    rt: &R,
    port: u16,
) -> Result<TcpStream, Refused<'static>> {
    match TcpStream::connect(rt, (HOST, port)) {
        Ok(stream) => {
            let _ = stream.set_nodelay(true);
            Ok(stream)
        }
        Err(error) => Err(Refused {
            fault: Fault::Socket,
            about: About::Port(
                port,
                match error.kind() {
                    ErrorKind::ConnectionRefused | ErrorKind::TimedOut => Sentence::NoDaemon,
                    _ => Sentence::Socket,
                },
            ),
        }),
    }
}

/// These lines, each with a line feed at its end.
fn joined(alloc: Global, lines: &[&str]) -> Result<Vec<u8>, AllocError> {
    let mut bytes = Vec::new(alloc);
    for line in lines {
        bytes.extend_from_slice(line.as_bytes())?;
        bytes.extend_from_slice(b"\n")?;
    }
    Ok(bytes)
}

/// Why a daemon at a port wasn't asked any further.
fn refused(port: u16, fault: AskFault) -> Refused<'static> {
    match fault {
        AskFault::Memory => Refused {
            fault: Fault::Memory,
            about: About::Word(Sentence::Memory),
        },
        AskFault::Stream => Refused {
            fault: Fault::Stream,
            about: About::Word(Sentence::Stream),
        },
        AskFault::Unanswered => Refused {
            fault: Fault::Stream,
            about: About::Port(port, Sentence::Unanswered),
        },
    }
}
