//! The second line of a refusal, for whoever sits at a terminal.

use crate::sentence::Sentence;
use std::alloc::Global;
use std::fmt::{self, Display, Formatter};
use std::io::Write;

/// What a refusal is about.
#[derive(Clone, Copy, Debug, PartialEq, Eq)]
pub enum Place<'a> {
    /// A file, as it was named.
    File(&'a str),
    /// A port of this machine.
    Port(u16),
}

impl<'a> Display for Place<'a> {
    fn fmt<W: fmt::Write>(&self, f: &mut Formatter<W>) -> fmt::Result {
        match self {
            Place::File(path) => write!(f, "{path}"),
            Place::Port(port) => write!(f, "port {port}"),
        }
    }
}

/// Writes why the program refused and what to do, as `peritext: PLACE: SENTENCE`. If there is no
/// memory for it, or it can't be written, the number and the word have been told all the same.
pub fn explain<F: Write>(
    alloc: Global,
    place: Option<Place<'_>>,
    sentence: Sentence,
    faults: &mut F,
) {
    let line = match place {
        Some(place) => format!(in alloc; "peritext: {place}: {sentence}\n"),
        None => format!(in alloc; "peritext: {sentence}\n"),
    };
    if let Ok(line) = line
        && faults.write_all(line.as_bytes()).is_ok()
    {
        let _ = faults.flush();
    }
}
