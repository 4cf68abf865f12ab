//! Why something ended.
use crate::quoted::Quoted;
use std::fmt::{self, Display, Formatter};

/// What ended something: the number of a refusal and its word, or 0 and a word where nothing was
/// refused.
#[derive(Clone, Copy)]
pub struct Reason<'a> {
    pub code: u8,
    pub word: &'a str,
}

impl<'a> Display for Reason<'a> {
    fn fmt<W: fmt::Write>(&self, f: &mut Formatter<W>) -> fmt::Result {
        write!(f, "code={} reason={}", self.code, Quoted(self.word))
    }
}
