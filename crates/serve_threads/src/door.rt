//! One socket at which the daemon listens.

use shared_desk::{End, Ending};
use std::net::{Ipv4Addr, Net, Shutdown, SocketAddr, TcpListener, TcpStream};
use std::os::fd::OwnedFd;
use std::rt::Clock;
use std::sync::{Mutex, Wait};
use std::time::Duration;
use std::{io, thread};

/// The pause before a door is knocked at again, in milliseconds.
const PAUSE: u64 = 10;

/// How long a knock may take, in milliseconds. It takes long only where so many connections wait
/// already that whoever accepts them is awake.
const PATIENCE: u64 = 100;

/// One socket at which the daemon listens, with a copy of it that ends the wait there. The copy is
/// made at the start: at the end there may be no descriptor left.
#[derive(Drop)]
pub(crate) struct Door {
    listener: TcpListener,
    copy: TcpStream,
    /// Whether nobody accepts connections here any more.
    is_left: Mutex<bool>,
}

impl Door {
    /// A door with this listener.
    pub(crate) fn new(listener: TcpListener) -> io::Result<Door> {
        let copy = TcpStream::from(OwnedFd::from(listener.try_clone()?));
        Ok(Door {
            listener,
            copy,
            is_left: Mutex::new(false),
        })
    }

    /// The listener.
    pub(crate) fn listener(&self) -> &TcpListener {
        &self.listener
    }

    /// Notes that nobody accepts connections here any more.
    pub(crate) fn note_left<R: Wait>(&self, rt: &R) {
        *self.is_left.lock(rt) = true;
    }

    /// Ends the wait of the one who accepts connections here, and refuses all further ones.
    pub(crate) fn shut(&self) {
        let _ = self.copy.shutdown(Shutdown::Both);
    }

    /// Ends the wait of the one who accepts connections here: for a renewal by connections that
    /// say nothing, until one is noticed, so that the socket goes on listening; else for good.
    pub(crate) fn leave<R: Wait + Clock + Net<Listener = TcpListener, Stream = TcpStream>>(
        &self,
        rt: &R,
        ending: &Ending,
    ) {
        for _ in rt.forever() {
            if *self.is_left.lock(rt) {
                return;
            }
            if ending.asked(rt) != Some(End::Renewal) {
                self.shut();
                return;
            }
            self.knock(rt);
            thread::sleep(rt, Duration::from_millis(PAUSE));
        }
    }

    /// Makes a connection that says nothing.
    fn knock<R: Net<Listener = TcpListener, Stream = TcpStream>>(&self, rt: &R) {
        if let Ok(place) = self.listener.local_addr() {
            let place = SocketAddr::from((Ipv4Addr::LOCALHOST, place.port()));
            let _ = TcpStream::connect_timeout(rt, &place, Duration::from_millis(PATIENCE));
        }
    }

    /// The listener alone.
    pub(crate) fn into_listener(self) -> TcpListener {
        let Door { listener, .. } = self;
        listener
    }
}
