//! Why a daemon was refused what it began with or stands on.
use crate::quoted::Quoted;
use std::fmt::{self, Display, Formatter};

/// Why a daemon ended that didn't end by a stop, and what that is about.
#[derive(Clone, Copy)]
pub struct Cause<'a> {
    /// The program's exit status.
    pub status: u8,
    /// Why it is so and what to do, in one sentence.
    pub sentence: &'a str,
    pub about: About<'a>,
}

/// What a cause is about.
#[derive(Clone, Copy)]
pub enum About<'a> {
    File(&'a str),
    Port(u16),
    /// Nothing outside of the program.
    Nothing,
}

impl<'a> Display for Cause<'a> {
    fn fmt<W: fmt::Write>(&self, f: &mut Formatter<W>) -> fmt::Result {
        let (status, sentence) = (self.status, Quoted(self.sentence));
        write!(f, "status={status} cause={sentence}")?;
        match self.about {
            About::File(path) => write!(f, " file={}", Quoted(path)),
            About::Port(port) => write!(f, " port={port}"),
            About::Nothing => Ok(()),
        }
    }
}
