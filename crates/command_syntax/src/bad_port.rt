//! A port that is none.
use std::fmt::{self, Display, Formatter};

/// The argument that is a port, and no option.
const ARGUMENT: &str = "PORT";

/// A word that is no port, and the option that it was given for, or `PORT`, the argument.
#[derive(Clone, Copy, Debug, Drop, PartialEq, Eq)]
pub struct BadPort<'a> {
    pub option: &'a str,
    pub word: &'a str,
}

/// As `clap` tells of a bad value.
impl<'a> Display for BadPort<'a> {
    fn fmt<W: fmt::Write>(&self, f: &mut Formatter<W>) -> fmt::Result {
        let BadPort { option, word } = *self;
        if option == ARGUMENT {
            write!(f, "invalid value '{word}' for '<PORT>'")?;
        } else {
            write!(f, "invalid value '{word}' for '--{option} <PORT>'")?;
        }
        f.write_str(": a port is a number from 1 to 65535, in decimal digits")
    }
}
