//! Passing answers on.
ghost use Rattle.std.specs.Prelude.{OnOk};
ghost use Rattle.daemon_asking.specs.Passing.{Passes};

use crate::ask_fault::AskFault;
use crate::judging::is_ok;
use byte_streams::put;
use std::alloc::Global;
use std::io::{BufRead, ErrorKind, Write};

/// What became of one answer.
#[derive(Clone, Copy, Debug, Drop, PartialEq, Eq)]
pub(crate) enum Answered {
    /// It was printed, and is no refusal.
    Ok,
    /// It was printed, and is a refusal, or no answer at all.
    Refused,
    /// None came: the daemon has ended the connection.
    Nothing,
}

/// Prints the next answer, whole, and judges it.
pub(crate) fn pass_on<B: BufRead, W: Write>(
    alloc: Global,
    answers: &mut B,
    output: &mut W,
) -> Result<Answered, AskFault>
    ensures { OnOk result (Passes (B.remaining answers.old) (B.remaining answers.new)
        (W.contents output.old) (W.contents output.new)) }
{
    let mut line = Vec::new(alloc);
    match answers.read_until(b'\n', &mut line) {
        Ok(_) => {}
        Err(error) if error.kind() == ErrorKind::OutOfMemory => return Err(AskFault::Memory),
        Err(_) => return Err(AskFault::Unanswered),
    }
    if put(output, &line).is_err() {
        return Err(AskFault::Stream);
    }
    if line.is_empty() {
        Ok(Answered::Nothing)
    } else if is_ok(alloc, &line)? {
        Ok(Answered::Ok)
    } else {
        Ok(Answered::Refused)
    }
}
