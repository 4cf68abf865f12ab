//! Who serves the commands of a session.
ghost use Rattle.std.specs.Prelude.{◌≡◌};

use session_lines::{Answer, Command};
use std::alloc::Global;

/// Serves commands, one after the other. Whether it waits meanwhile is its own matter.
pub trait Desk {
    ghost use Rattle.session_lines.specs.declared.command.Command.{Command};
    ghost use Rattle.session_lines.specs.declared.answer.Answer.{Answer};

    /// A command may be given this answer: the desk before, the command, the answer, the desk
    /// after.
    ghost serves: { Self → Command → Answer → Self → Type 0 };

    /// Is told that a line has been read, before that is looked at.
    fn line_read(&mut self)
        ensures { self.new ≡ self.old };

    /// Serves a command. Out of memory is an answer like any other refusal.
    fn serve(&mut self, alloc: Global, command: Command) -> Answer
        ensures { serves self.old command result self.new };
}
