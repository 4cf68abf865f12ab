//! Why a request isn't served.
ghost use Rattle.std.specs.Prelude.{◌≡◌};
ghost use Rattle.session_lines.specs.declared.refusal.Refusal.TheVariants.{Memory};

use fixed_numbers::refusals::{
    BUSY, FAILED, FIELD, LIMIT, LINE, MEMORY, RANGE, REQUEST, STALE, STEPS, STOPPING, SYNTAX,
};
use std::alloc::{AllocError, AllocFailed};
use std::error::Error;
use std::fmt;

/// Why a request isn't served. Each refusal has a number and a word, which stand in its answer.
#[derive(Clone, Copy, Debug, Drop, PartialEq, Eq)]
pub enum Refusal {
    /// 1: a growth was refused.
    Memory,
    /// 2: the line isn't read as JSON.
    Syntax,
    /// 3: no such request.
    Request,
    /// 4: a field is missing, unknown or out of its rule.
    Field,
    /// 5: an index outside the visible text.
    Range,
    /// 6: the document isn't at the asked number of operations.
    Stale,
    /// 7: a limit of a request, a clock or the store.
    Limit,
    /// 8: no room for pending bytes, or too many sessions.
    Busy,
    /// 9: the device failed, or no commit could begin.
    Failed,
    /// 10: no place for kept steps.
    Steps,
    /// 11: a line over 65,536 bytes.
    Line,
    /// 12: an edit after a stop.
    Stopping,
}

impl fmt::Display for Refusal {
    fn fmt<W: fmt::Write>(&self, f: &mut fmt::Formatter<W>) -> fmt::Result {
        f.write_str(self.word())
    }
}

impl Error for Refusal {}

impl From<AllocError> for Refusal {
    ghost from_gives = { λ _ e. e ≡ Memory };

    fn from(_error: AllocError) -> Refusal {
        Refusal::Memory
    }
}

impl<T: Drop> From<AllocFailed<T>> for Refusal {
    ghost from_gives = { λ _ e. e ≡ Memory };

    fn from(_error: AllocFailed<T>) -> Refusal {
        Refusal::Memory
    }
}

impl Refusal {
    ghost use Rattle.session_lines.specs.Saying.{number_of, word_of};

    /// The number of the refusal, from 1 to 12.
    pub fn number(self) -> u8
        ensures { result ≡ number_of self }
    {
        match self {
            Refusal::Memory => MEMORY,
            Refusal::Syntax => SYNTAX,
            Refusal::Request => REQUEST,
            Refusal::Field => FIELD,
            Refusal::Range => RANGE,
            Refusal::Stale => STALE,
            Refusal::Limit => LIMIT,
            Refusal::Busy => BUSY,
            Refusal::Failed => FAILED,
            Refusal::Steps => STEPS,
            Refusal::Line => LINE,
            Refusal::Stopping => STOPPING,
        }
    }

    /// The word of the refusal, as its answer has it.
    pub fn word(self) -> &'static str
        ensures { result.now ≡ word_of self }
    {
        match self {
            Refusal::Memory => "memory",
            Refusal::Syntax => "syntax",
            Refusal::Request => "request",
            Refusal::Field => "field",
            Refusal::Range => "range",
            Refusal::Stale => "stale",
            Refusal::Limit => "limit",
            Refusal::Busy => "busy",
            Refusal::Failed => "failed",
            Refusal::Steps => "steps",
            Refusal::Line => "line",
            Refusal::Stopping => "stopping",
        }
    }
}
