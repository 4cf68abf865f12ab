//! What a daemon runs on.

use std::net::{Net, TcpListener, TcpStream};
use std::rt::Clock;
use std::sync::Wait;
use std::thread::Threads;

/// What a daemon runs on: threads that may wait for each other, a clock, and sockets.
pub trait Host: Wait + Clock + Threads + Net<Listener = TcpListener, Stream = TcpStream> + Sync {}

impl<R: Wait + Clock + Threads + Net<Listener = TcpListener, Stream = TcpStream> + Sync> Host
    for R {}
