//! Where the daemon listens, and the peer that it joins.

use crate::refusing::{About, Refused};
use command_syntax::ServeOrder;
use serve_threads::{Joined, Sockets};
use std::io::ErrorKind;
use std::net::{Net, TcpListener, TcpStream};
use store_orders::{Fault, Sentence};

/// Where sockets are.
pub const HOST: &str = "127.0.0.1";

/// Opens the sockets that an order names, in its order, and joins its peer, which isn't the daemon
/// itself. Nothing is told, and no web page may come in so far. `Socket` (70) where one of them
/// can't be had.
pub fn open_sockets<'a, R: Net<Listener = TcpListener, Stream = TcpStream>>(
    rt: &R,
    order: ServeOrder<'_>,
) -> Result<Sockets<'a>, Refused<'static>> {
    if let Some(port) = order.link
        && is_own(port, order)
    {
        return Err(refused(port, Sentence::OwnPort));
    }
    Ok(Sockets {
        sessions: listen(rt, order.sessions)?,
        peers: listen(rt, order.peers)?,
        web: match order.web {
            Some(web) => Some(listen(rt, web.port)?),
            None => None,
        },
        origins: &[],
        joined: match order.link {
            Some(port) => Some(join(rt, port)?),
            None => None,
        },
        ends_on_failure: order.ends_on_failure,
        journal: None,
    })
}

/// Whether the daemon itself listens on a port.
fn is_own(port: u16, order: ServeOrder<'_>) -> bool {
    port == order.peers || port == order.sessions || order.web.is_some_and(|web| web.port == port)
}

/// Listens on a port.
fn listen<R: Net<Listener = TcpListener, Stream = TcpStream>>(
    rt: &R,
    port: u16,
) -> Result<TcpListener, Refused<'static>> {
    match TcpListener::bind(rt, (HOST, port)) {
        Ok(listener) => Ok(listener),
        Err(error) => Err(refused(
            port,
            match error.kind() {
                ErrorKind::AddrInUse => Sentence::PortTaken,
                ErrorKind::PermissionDenied => Sentence::PortWithoutRight,
                _ => Sentence::Socket,
            },
        )),
    }
}

/// Joins the peer that listens on a port.
fn join<R: Net<Listener = TcpListener, Stream = TcpStream>>(
    rt: &R,
    port: u16,
) -> Result<Joined, Refused<'static>> {
    match Joined::to(rt, port) {
        Ok(joined) => Ok(joined),
        Err(error) => Err(refused(
            port,
            match error.kind() {
                ErrorKind::ConnectionRefused | ErrorKind::TimedOut => Sentence::NoPeer,
                _ => Sentence::Socket,
            },
        )),
    }
}

/// A port that can't be had.
fn refused(port: u16, sentence: Sentence) -> Refused<'static> {
    Refused {
        fault: Fault::Socket,
        about: About::Port(port, sentence),
    }
}
