//! Where the daemon listens.

use crate::door::Door;
use shared_desk::Ending;
use std::io;
use std::net::{Net, TcpListener, TcpStream};
use std::rt::Clock;
use std::sync::Wait;

/// Where the daemon listens: for sessions, for peers, and perhaps for WebSockets.
#[derive(Drop)]
pub(crate) struct Doors {
    pub sessions: Door,
    pub peers: Door,
    pub web: Option<Door>,
}

impl Doors {
    /// The doors with these listeners. An error where the system has no more descriptors for a
    /// connection: nobody could ever be let in.
    pub(crate) fn new(
        sessions: TcpListener,
        peers: TcpListener,
        web: Option<TcpListener>,
    ) -> io::Result<Doors> {
        let doors = Doors {
            sessions: Door::new(sessions)?,
            peers: Door::new(peers)?,
            web: match web {
                Some(web) => Some(Door::new(web)?),
                None => None,
            },
        };
        // A connection takes one, and the lobby a copy of it.
        let _spare = (
            doors.sessions.listener().try_clone()?,
            doors.peers.listener().try_clone()?,
        );
        Ok(doors)
    }

    /// Ends the waits of those who accept connections, and refuses all further ones.
    pub(crate) fn shut(&self) {
        self.sessions.shut();
        self.peers.shut();
        if let Some(web) = &self.web {
            web.shut();
        }
    }

    /// Ends the waits of those who accept connections. For a renewal the sockets go on listening,
    /// so whoever comes meanwhile waits there for the next turn.
    pub(crate) fn leave<R: Wait + Clock + Net<Listener = TcpListener, Stream = TcpStream>>(
        &self,
        rt: &R,
        ending: &Ending,
    ) {
        self.sessions.leave(rt, ending);
        self.peers.leave(rt, ending);
        if let Some(web) = &self.web {
            web.leave(rt, ending);
        }
    }

    /// The listeners, for sessions, for peers and for WebSockets.
    pub(crate) fn into_listeners(self) -> (TcpListener, TcpListener, Option<TcpListener>) {
        let Doors {
            sessions,
            peers,
            web,
        } = self;
        let web = web.map(|web| web.into_listener());
        (sessions.into_listener(), peers.into_listener(), web)
    }
}
