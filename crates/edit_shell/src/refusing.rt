//! How the program tells what ended it.

use crate::looking::{Purpose, why_not_opened};
use std::fs::File;
use std::io::{IsTerminal, Write};
use std::rt::Files;
use store_orders::{Fault, Place, Sentence, explain, status};

/// A refusal that ends the program, and what it is about.
#[derive(Clone, Copy, Drop)]
pub struct Refused<'a> {
    pub fault: Fault,
    pub about: About<'a>,
}

/// What a refusal is about.
#[derive(Clone, Copy, Drop)]
pub enum About<'a> {
    /// The file of this path, which was opened for something.
    File(&'a str, Purpose),
    /// A port, and why it can't be had.
    Port(u16, Sentence),
    /// A word of the command line.
    Word(Sentence),
}

/// The exit status of a run that ended so. A refusal is written as `peritext: NUMBER WORD`; on a
/// terminal a second line says what it is about, why it is so, and what to do. The file is looked
/// at for that line alone.
pub fn ended<R: Files<File = File> + AllocGlobal, F: Write + IsTerminal>(
    rt: &R,
    end: Result<(), Refused<'_>>,
    faults: &mut F,
) -> u8 {
    let Err(refused) = end else {
        return 0;
    };
    let status = status(rt.alloc(), Err(refused.fault), faults);
    if faults.is_terminal() {
        let (place, sentence) = explanation(rt, refused);
        explain(rt.alloc(), place, sentence, faults);
    }
    status
}

/// The end of a run over one file.
pub fn of_file<'a>(
    end: Result<(), Fault>,
    path: &'a str,
    purpose: Purpose,
) -> Result<(), Refused<'a>> {
    match end {
        Ok(()) => Ok(()),
        Err(fault) => Err(of_path(fault, path, purpose)),
    }
}

/// A refusal of a run over the file of this path.
pub fn of_path(fault: Fault, path: &str, purpose: Purpose) -> Refused<'_> {
    Refused {
        fault,
        about: About::File(path, purpose),
    }
}

/// What a refusal is about, and why it is so. A file is looked at for that.
pub fn explanation<'a, R: Files<File = File>>(
    rt: &R,
    refused: Refused<'a>,
) -> (Option<Place<'a>>, Sentence) {
    let Refused { fault, about } = refused;
    match about {
        About::Port(port, sentence) => (Some(Place::Port(port)), sentence),
        About::Word(sentence) => (None, sentence),
        About::File(path, purpose) if fault == Fault::OpenFailed => (
            Some(Place::File(path)),
            why_not_opened(rt, path, purpose),
        ),
        About::File(path, _) if fault.is_of_file() => {
            (Some(Place::File(path)), Sentence::from(fault))
        }
        About::File(..) => (None, Sentence::from(fault)),
    }
}
