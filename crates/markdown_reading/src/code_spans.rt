//! Code within a line.
use crate::scanning::{count_of, first, front};

/// Longer runs of backticks are text.
const LONGEST: usize = 80;

/// Lengths of runs of backticks that are known not to come any more.
#[derive(Clone, Copy)]
pub(crate) struct Unclosed {
    is_missing: [bool; LONGEST],
}

impl Unclosed {
    /// None is known yet.
    pub(crate) fn none() -> Unclosed {
        Unclosed {
            is_missing: [false; LONGEST],
        }
    }

    /// The code after so many backticks, and what is left after those that end it.
    pub(crate) fn code<'a>(
        &mut self,
        text: &'a [char],
        length: usize,
    ) -> Option<(&'a [char], &'a [char])> {
        if length >= LONGEST || self.is_missing[length] {
            return None;
        }
        match closing(text, length) {
            Some(end) => Some((padded(front(text, end)), end.get(length..)?)),
            None => {
                self.is_missing[length] = true;
                None
            }
        }
    }
}

/// What is left from the next run of just so many backticks on.
fn closing(text: &[char], length: usize) -> Option<&[char]> {
    let mut rest = text;
    for _ in 0..text.len() {
        let ticks = count_of(rest, '`');
        if ticks == length {
            return Some(rest);
        }
        rest = rest.get(ticks.max(1)..)?;
    }
    None
}

/// Code without the one space that pads it on both sides.
fn padded(code: &[char]) -> &[char] {
    let is_blank = code.iter().all(|character| is_gap(*character));
    let ends = first(code).is_some_and(is_gap) && code.last().copied().is_some_and(is_gap);
    if is_blank || !ends {
        return code;
    }
    code.get(1..code.len().saturating_sub(1)).unwrap_or(code)
}

/// Whether a character stands for a space within code.
pub(crate) fn is_gap(character: char) -> bool {
    character == ' ' || character == '\n'
}
