//! What the daemon's threads share.

use crate::accepting::Kind;
use crate::entry::Entry;
use crate::lobby::Lobby;
use crate::sockets::Manner;
use event_journal::{Event, LinkPlace};
use link_threads::{LinkHost, LinkLog};
use op_ids::ReplicaId;
use pass_books::BookNames;
use shared_desk::{Daemon, End, Ending};
use shared_hub::{Checkpoint, Guarded, Pass, Shared};
use std::alloc::{AllocError, Global};
use std::net::TcpStream;
use std::sync::{Mutex, Wait};

/// How many sessions are served at once; the other passes are for links.
const SESSIONS: usize = 32;

/// How many links are served at once; each takes another pass for its thread that tells.
const LINKS: usize = 8;

/// How many WebSockets are told at once that there is no place for them.
const REFUSED: usize = 8;

/// How many links of peers that came in are served beside the one that the daemon joins.
const OTHERS: usize = 7;

/// What a daemon is given beside its file and its sockets.
#[derive(Clone, Copy)]
pub(crate) struct Base<'a, R, C> {
    pub rt: &'a R,
    pub alloc: Global,
    pub checkpoint: &'a C,
}

/// What the daemon's threads share: the hub, the connections of sessions and of links, whose turn
/// it is to read, and whether it was asked to end.
#[derive(Drop)]
pub(crate) struct Hall<'a, R: Wait, J: BookNames, C: Checkpoint> {
    pub rt: &'a R,
    pub alloc: Global,
    pub checkpoint: &'a C,
    pub own: ReplicaId,
    pub shared: Shared<J>,
    pub sessions: Lobby<J>,
    /// WebSockets for which there is no place: they are told so.
    pub refused: Lobby<J>,
    /// The links of peers that came in.
    pub links: Lobby<J>,
    /// The link that the daemon joins by itself: others can't take its place.
    pub own_link: Lobby<J>,
    /// Whoever has it may read a text or spans: so an edit waits for few of those who read.
    pub read_turn: Mutex<()>,
    pub ending: Ending,
    pub manner: Manner<'a>,
}

impl<'a, R: Wait, J: BookNames, C: Checkpoint> Hall<'a, R, J, C> {
    /// Nobody is connected yet. A place is kept for the link that the daemon joins, where it joins
    /// one. An error is out of memory (1).
    pub(crate) fn new(
        base: Base<'a, R, C>,
        own: ReplicaId,
        shared: Shared<J>,
        passes: Vec<Pass<J>>,
        manner: Manner<'a>,
    ) -> Result<Hall<'a, R, J, C>, AllocError> {
        let Base {
            rt,
            alloc,
            checkpoint,
        } = base;
        let mut sessions = passes;
        let mut links = sessions.split_off(sessions.len().min(SESSIONS))?;
        let mut telling = links.split_off(links.len().min(LINKS))?;
        let others = if manner.port.is_some() { OTHERS } else { LINKS };
        let own_link = links.split_off(links.len().min(others))?;
        let own_telling = telling.split_off(telling.len().min(others))?;
        Ok(Hall {
            rt,
            alloc,
            checkpoint,
            own,
            shared,
            sessions: Lobby::new(alloc, sessions)?,
            refused: Lobby::without_passes(alloc, REFUSED)?,
            links: Lobby::of_links(alloc, links, telling)?,
            own_link: Lobby::of_links(alloc, own_link, own_telling)?,
            read_turn: Mutex::new(()),
            ending: Ending::new(),
            manner,
        })
    }

    /// What the desks of sessions share of this.
    pub(crate) fn daemon(&'a self) -> Daemon<'a, R, J, C> {
        Daemon {
            rt: self.rt,
            shared: &self.shared,
            read_turn: &self.read_turn,
            ending: &self.ending,
            checkpoint: self.checkpoint,
        }
    }

    /// What a link at this place is served with.
    pub(crate) fn link_host(&'a self, place: LinkPlace) -> LinkHost<'a, R, J, C> {
        LinkHost {
            rt: self.rt,
            alloc: self.alloc,
            own: self.own,
            shared: &self.shared,
            checkpoint: self.checkpoint,
            log: LinkLog {
                journal: self.manner.journal,
                place,
            },
        }
    }

    /// Tells of an event, if anybody is to be told.
    pub(crate) fn tell(&self, event: &Event<'_>) {
        if let Some(journal) = self.manner.journal {
            journal.tell(self.rt, event);
        }
    }

    /// Whether the file is to be opened anew. One that was put back isn't: it takes no edit in this
    /// process any more.
    pub(crate) fn is_renewed(&self) -> bool {
        self.ending.asked(self.rt) == Some(End::Renewal) && !self.shared.are_links_over(self.rt)
    }

    /// What stood under the hub's lock, once no thread shares it.
    pub(crate) fn into_guarded(self) -> Guarded<J> {
        let Hall { shared, .. } = self;
        shared.end()
    }

    /// Lets a connection in, and gives its lobby and its entry; not where all places are taken. A
    /// WebSocket can be told that only once its request was read and answered.
    pub(crate) fn enter(&self, kind: Kind, stream: &TcpStream) -> Option<(&Lobby<J>, Entry)> {
        let lobby = match kind {
            Kind::Session | Kind::Web => &self.sessions,
            Kind::Link => &self.links,
        };
        if let Some(entry) = lobby.enter(self.rt, stream) {
            return Some((lobby, entry));
        }
        if kind != Kind::Web {
            return None;
        }
        let entry = self.refused.enter(self.rt, stream)?;
        Some((&self.refused, entry))
    }
}
