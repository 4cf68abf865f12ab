//! A mark operation.
ghost use Rattle.std.specs.Prelude.{◌≡◌, IfOk};

use crate::anchor::{End, Start};
use crate::mark::{Mark, MarkKey};
use op_ids::OpId;
use std::alloc::AllocError;

/// A mark operation: what it decides, the mark that it adds, none where it removes one, and its two
/// anchors.
#[derive(Debug, Drop, PartialEq, Eq)]
pub struct Marking {
    pub id: OpId,
    pub key: MarkKey,
    pub mark: Option<Mark>,
    pub start: Start,
    pub end: End,
}

impl Marking {
    /// The same mark operation again. An error is out of memory (1), which only a link asks for.
    pub fn copy(&self) -> Result<Marking, AllocError>
        ensures { IfOk result (λ copied. copied ≡ self.now) }
    {
        let mark = match &self.mark {
            Some(mark) => Some(mark.copy()?),
            None => None,
        };
        Ok(Marking {
            id: self.id,
            key: self.key,
            mark,
            start: self.start,
            end: self.end,
        })
    }
}
