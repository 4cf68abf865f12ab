//! What a daemon tells of itself, each as a line.
use crate::cause::Cause;
use crate::entrance::Entrance;
use crate::quoted::Quoted;
use crate::reason::Reason;
use op_ids::ReplicaId;
use std::fmt::{self, Display, Formatter};
use uuid::Uuid;

/// Which link it is, and the port of its other end.
#[derive(Clone, Copy)]
pub struct LinkPlace {
    /// How many links came in, or were joined, before this one.
    pub link: u64,
    /// Whether the daemon joined it by `--link`.
    pub is_joined: bool,
    pub port: u16,
}

impl Display for LinkPlace {
    fn fmt<W: fmt::Write>(&self, f: &mut Formatter<W>) -> fmt::Result {
        let way = if self.is_joined { "joined" } else { "came" };
        write!(f, "link={} way={way} port={}", self.link, self.port)
    }
}

/// What happened in a daemon. Its text is a line of fields, `NAME=VALUE` each, without the end of
/// the line.
#[derive(Clone, Copy)]
pub enum Event<'a> {
    /// A file was opened, and is served.
    Listening {
        file: &'a str,
        replica: ReplicaId,
        sessions: u16,
        peers: u16,
        /// The port of WebSockets, if they come in.
        web: Option<u16>,
        operations: u64,
        documents: u64,
    },
    /// A session was let in, with this number.
    SessionUp {
        session: u64,
        door: Entrance<'a>,
    },
    /// A session ended.
    SessionDown {
        session: u64,
        reason: Reason<'a>,
        /// The code with which its WebSocket was closed, if it had one.
        close: Option<u16>,
    },
    /// A session was turned away at this door.
    SessionRefused {
        door: Entrance<'a>,
        reason: Reason<'a>,
    },
    /// Another replica has greeted over a link.
    LinkUp {
        place: LinkPlace,
        replica: ReplicaId,
    },
    /// A link ended.
    LinkDown {
        place: LinkPlace,
        reason: Reason<'a>,
    },
    /// A peer was turned away.
    LinkRefused {
        port: u16,
        reason: Reason<'a>,
    },
    /// The other end of a link has this replica's own number: one of both files is a copy.
    Copy {
        place: LinkPlace,
        replica: ReplicaId,
    },
    /// A commit failed: no edit is made any more.
    CommitFailed {
        reason: Reason<'a>,
    },
    /// The file is opened anew, since no steps were left.
    OpenedAnew,
    /// Lines were dropped, since nobody took them in time.
    Dropped {
        count: u64,
    },
    /// The daemon ended: by a stop, or for a cause.
    End {
        reason: Reason<'a>,
        cause: Option<Cause<'a>>,
    },
}

impl<'a> Event<'a> {
    /// Whether it is told on a terminal without `--log`.
    pub fn is_brief(&self) -> bool {
        matches!(self, Event::Listening { .. } | Event::End { .. })
    }
}

impl<'a> Display for Event<'a> {
    fn fmt<W: fmt::Write>(&self, f: &mut Formatter<W>) -> fmt::Result {
        match self {
            Event::Listening { .. } => fmt_listening(self, f),
            Event::SessionUp { session, door } => {
                write!(f, "event=session_up session={session} {door}")
            }
            Event::SessionDown {
                session,
                reason,
                close,
            } => fmt_down(*session, *reason, *close, f),
            Event::SessionRefused { door, reason } => {
                write!(f, "event=session_refused {door} {reason}")
            }
            Event::LinkUp { place, replica } => {
                write!(f, "event=link_up {place} replica={}", uuid_of(*replica))
            }
            Event::LinkDown { place, reason } => write!(f, "event=link_down {place} {reason}"),
            Event::LinkRefused { port, reason } => {
                write!(f, "event=link_refused port={port} {reason}")
            }
            Event::Copy { place, replica } => fmt_copy(*place, *replica, f),
            Event::CommitFailed { reason } => write!(f, "event=commit_failed {reason}"),
            Event::OpenedAnew => f.write_str("event=opened_anew"),
            Event::Dropped { count } => write!(f, "event=dropped count={count}"),
            Event::End { reason, cause } => match cause {
                Some(cause) => write!(f, "event=end {reason} {cause}"),
                None => write!(f, "event=end {reason}"),
            },
        }
    }
}

/// Writes a file and where it is served.
fn fmt_listening<W: fmt::Write>(event: &Event<'_>, f: &mut Formatter<W>) -> fmt::Result {
    if let Event::Listening {
        file,
        replica,
        sessions,
        peers,
        web,
        operations,
        documents,
    } = event
    {
        let (file, replica) = (Quoted(file), uuid_of(*replica));
        write!(f, "event=listening file={file} replica={replica} ")?;
        write!(f, "sessions={sessions} peers={peers} ")?;
        if let Some(web) = web {
            write!(f, "web={web} ")?;
        }
        write!(f, "operations={operations} documents={documents}")?;
    }
    Ok(())
}

/// Writes how a session ended.
fn fmt_down<W: fmt::Write>(
    session: u64,
    reason: Reason<'_>,
    close: Option<u16>,
    f: &mut Formatter<W>,
) -> fmt::Result {
    write!(f, "event=session_down session={session} {reason}")?;
    match close {
        Some(close) => write!(f, " close={close}"),
        None => Ok(()),
    }
}

/// Writes that one of both files is a copy.
fn fmt_copy<W: fmt::Write>(
    place: LinkPlace,
    replica: ReplicaId,
    f: &mut Formatter<W>,
) -> fmt::Result {
    let note = Quoted("this file is a copy; both ends stop telling");
    write!(
        f,
        "event=copy {place} replica={} note={note}",
        uuid_of(replica)
    )
}

/// The UUID that names a replica.
fn uuid_of(replica: ReplicaId) -> Uuid {
    Uuid::from_bytes(replica.bytes())
}
