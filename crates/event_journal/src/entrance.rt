//! By which door a session comes.
use crate::quoted::Quoted;
use std::fmt::{self, Display, Formatter};

/// By which door a session comes.
#[derive(Clone, Copy)]
pub enum Entrance<'a> {
    /// The port of sessions.
    Sessions,
    /// The port of WebSockets: from a web page of this origin, or from a program that is none.
    Web { origin: Option<&'a str> },
}

impl<'a> Display for Entrance<'a> {
    fn fmt<W: fmt::Write>(&self, f: &mut Formatter<W>) -> fmt::Result {
        match self {
            Entrance::Sessions => f.write_str("door=sessions"),
            Entrance::Web { origin: None } => f.write_str("door=web"),
            Entrance::Web {
                origin: Some(origin),
            } => write!(f, "door=web origin={}", Quoted(origin)),
        }
    }
}
