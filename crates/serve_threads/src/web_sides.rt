//! The two sides of a WebSocket's connection, to which both ends of its session write.

use crate::timed::Timed;
use std::cell::RefCell;
use std::io;
use std::io::{ErrorKind, Read, Write};
use std::net::TcpStream;
use std::rt::Clock;
use web_lines::Outlet;

/// The side that is read: replies to what comes are written to it, each whole or not at all.
#[derive(Drop)]
pub(crate) struct ReadSide<'a, R: Clock> {
    pub timed: &'a Timed<'a, R>,
    pub stream: &'a TcpStream,
    pub outlet: &'a RefCell<Outlet>,
}

impl<'a, R: Clock> Read for ReadSide<'a, R> {
    fn read(&mut self, buf: &mut [u8]) -> io::Result<usize> {
        self.timed.read(buf)
    }
}

impl<'a, R: Clock> Write for ReadSide<'a, R> {
    fn write(&mut self, buf: &[u8]) -> io::Result<usize> {
        match self.outlet.try_borrow_mut() {
            Ok(mut outlet) => outlet.reply(&mut self.stream, buf),
            Err(_) => Err(io::Error::from(ErrorKind::WouldBlock)),
        }
    }

    fn flush(&mut self) -> io::Result<()> {
        settle(self.outlet, self.stream)
    }
}

/// The side to which answers are written, after the replies that wait. Nothing is read from it.
#[derive(Drop)]
pub(crate) struct WriteSide<'a> {
    pub stream: &'a TcpStream,
    pub outlet: &'a RefCell<Outlet>,
}

impl<'a> Read for WriteSide<'a> {
    fn read(&mut self, _buf: &mut [u8]) -> io::Result<usize> {
        Ok(0)
    }
}

impl<'a> Write for WriteSide<'a> {
    fn write(&mut self, buf: &[u8]) -> io::Result<usize> {
        match self.outlet.try_borrow_mut() {
            Ok(mut outlet) => outlet.write(&mut self.stream, buf),
            Err(_) => Err(io::Error::from(ErrorKind::WouldBlock)),
        }
    }

    fn flush(&mut self) -> io::Result<()> {
        settle(self.outlet, self.stream)
    }
}

/// Writes the replies that wait.
fn settle(outlet: &RefCell<Outlet>, mut stream: &TcpStream) -> io::Result<()> {
    match outlet.try_borrow_mut() {
        Ok(mut outlet) => outlet.settle(&mut stream),
        Err(_) => Err(io::Error::from(ErrorKind::WouldBlock)),
    }
}
