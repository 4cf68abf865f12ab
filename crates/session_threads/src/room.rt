//! The memory of a session.
ghost use Rattle.std.specs.Prelude.{◌≡◌, [], Some, IfOk};

use crate::answer_text::AnswerText;
use crate::held_line::HeldLine;
use std::alloc::{AllocError, Global};

/// The memory that a session holds from its start on.
#[derive(Drop)]
pub struct Room {
    /// The line that is being read.
    pub line: HeldLine,
    /// The last answer.
    pub text: AnswerText,
}

impl Room {
    /// An empty line, and no answer yet.
    pub(crate) fn new(alloc: Global) -> Result<Room, AllocError>
        ensures { IfOk result (λ room. room.line ≡ Some []) }
    {
        let line = HeldLine::new(alloc)?;
        let text = AnswerText::new(alloc)?;
        Ok(Room { line, text })
    }
}
