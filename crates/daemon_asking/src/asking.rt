//! Asking line by line.
ghost use Rattle.std.specs.Prelude.{OnOk};
ghost use Rattle.daemon_asking.specs.Passing.{Passes};

use crate::ask_fault::AskFault;
use crate::passing::{Answered, pass_on};
use byte_streams::put;
use session_lines::watch_line;
use std::alloc::Global;
use std::io::{BufRead, ErrorKind, Write};

/// Sends requests to a daemon, a line each, and prints each answer before it sends the next line;
/// after a watch, what comes until the daemon ends. Answers whether no answer was a refusal.
///
/// `Memory` (1) where a growth was refused, `Stream` (71) where the requests can't be read or the
/// answers not be printed, and `Unanswered` (71) where the daemon ended before an answer.
pub fn ask_all<I: BufRead, D: Write, B: BufRead, W: Write>(
    alloc: Global,
    requests: &mut I,
    daemon: &mut D,
    answers: &mut B,
    output: &mut W,
) -> Result<bool, AskFault>
    ensures { OnOk result (Passes (B.remaining answers.old) (B.remaining answers.new)
        (W.contents output.old) (W.contents output.new)) }
{
    let mut are_ok = true;
    for _ in 0..u64::MAX {
        let line = next_line(alloc, requests)?;
        if line.is_empty() {
            break;
        }
        if put(daemon, &line).is_err() {
            return Err(AskFault::Unanswered);
        }
        match pass_on(alloc, answers, output)? {
            Answered::Ok if is_watch(alloc, &line) => {
                return Ok(pass_all(alloc, answers, output)? && are_ok);
            }
            Answered::Ok => {}
            Answered::Refused => are_ok = false,
            Answered::Nothing => return Err(AskFault::Unanswered),
        }
    }
    Ok(are_ok)
}

/// The next line, with a line feed at its end; nothing at the end of the requests.
fn next_line<I: BufRead>(alloc: Global, requests: &mut I) -> Result<Vec<u8>, AskFault> {
    let mut line = Vec::new(alloc);
    match requests.read_until(b'\n', &mut line) {
        Ok(_) => {}
        Err(error) if error.kind() == ErrorKind::OutOfMemory => return Err(AskFault::Memory),
        Err(_) => return Err(AskFault::Stream),
    }
    if !line.is_empty() && line.last() != Some(&b'\n') {
        line.extend_from_slice(b"\n")?;
    }
    Ok(line)
}

/// Whether a line asks to be told of changes. The daemon has read it so if it took it.
fn is_watch(alloc: Global, line: &[u8]) -> bool {
    watch_line(alloc, line).is_ok()
}

/// Prints what comes until the daemon ends, and answers whether none of it was a refusal.
fn pass_all<B: BufRead, W: Write>(
    alloc: Global,
    answers: &mut B,
    output: &mut W,
) -> Result<bool, AskFault>
    ensures { OnOk result (Passes (B.remaining answers.old) (B.remaining answers.new)
        (W.contents output.old) (W.contents output.new)) }
{
    let mut all_ok = true;
    for _ in 0..u64::MAX {
        match pass_on(alloc, answers, output)? {
            Answered::Ok => {}
            Answered::Refused => all_ok = false,
            Answered::Nothing => break,
        }
    }
    Ok(all_ok)
}
