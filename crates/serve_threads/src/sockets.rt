//! What a daemon stands on beside its file.

use crate::doors::Doors;
use crate::rejoining::Joined;
use event_journal::Journal;
use std::net::TcpListener;
use web_guests::Origin;

/// Where the daemon listens, the peer that it joined, and when it ends by itself.
#[derive(Drop)]
pub struct Sockets<'a> {
    pub sessions: TcpListener,
    pub peers: TcpListener,
    /// Where WebSockets come in, if they do.
    pub web: Option<TcpListener>,
    /// The web pages that may open them.
    pub origins: &'a [Origin],
    pub joined: Option<Joined>,
    /// Whether the daemon ends once the device failed. Otherwise it serves on, refuses edits (9)
    /// and shows what it has, until a session asks for a stop.
    pub ends_on_failure: bool,
    /// Where its events are told, if anybody is to be told.
    pub journal: Option<&'a Journal>,
}

/// What stays as it is from turn to turn.
#[derive(Clone, Copy)]
pub(crate) struct Manner<'a> {
    /// Where the peer listens that it joins, if it joins one.
    pub port: Option<u16>,
    /// The web pages that may open WebSockets.
    pub origins: &'a [Origin],
    pub ends_on_failure: bool,
    pub journal: Option<&'a Journal>,
}

impl<'a> Sockets<'a> {
    /// What stays as it is from turn to turn.
    pub(crate) fn manner(&self) -> Manner<'a> {
        Manner {
            port: self.joined.as_ref().map(|joined| joined.port),
            origins: self.origins,
            ends_on_failure: self.ends_on_failure,
            journal: self.journal,
        }
    }

    /// The sockets for the next turn, whose peer is joined anew.
    pub(crate) fn anew(doors: Doors, manner: Manner<'a>) -> Sockets<'a> {
        let (sessions, peers, web) = doors.into_listeners();
        Sockets {
            sessions,
            peers,
            web,
            origins: manner.origins,
            joined: manner.port.map(Joined::anew),
            ends_on_failure: manner.ends_on_failure,
            journal: manner.journal,
        }
    }
}
