//! One line and its answer.
ghost use Rattle.std.specs.Prelude.{◌≡◌, List, ℕ, OnOk, OnErr, Result};
ghost use Rattle.std.specs.Io.KnownBytes.{Appends};
ghost use Rattle.session_lines.specs.declared.command.Command.{Command};
ghost use Rattle.session_lines.specs.declared.refusal.Refusal.{Refusal};
ghost use Rattle.session_threads.specs.Exchanges.{IsTaken, IsAnswered, Exchange};
ghost use Rattle.byte_streams.specs.Fronts.{AppendsFront};

use crate::desk::Desk;
use crate::held_line::HeldLine;
use crate::room::Room;
use byte_streams::put;
use session_lines::{Answer, Command, Refusal, read_command};
use std::alloc::Global;
use std::io;
use std::io::Write;

/// What a line asks for, or why it isn't served.
fn take(alloc: Global, line: &HeldLine) -> Result<Command, Refusal>
    ensures { IsTaken line.now result }
{
    match line.as_slice() {
        Some(line) => read_command(alloc, line),
        None => Err(Refusal::Line),
    }
}

/// The answer to a line. The desk is asked where the line is a command.
fn answer<D: Desk>(alloc: Global, line: &HeldLine, desk: &mut D) -> Answer
    ensures { (taken : Result Command Refusal) × IsTaken line.now taken
        × IsAnswered D.serves desk.old taken result desk.new }
{
    match take(alloc, line) {
        Ok(command) => desk.serve(alloc, command),
        Err(refusal) => Answer::Refused(refusal),
    }
}

/// Answers the line that is there, and writes the answer, whose memory is given back then.
pub(crate) fn exchange<W: Write, D: Desk>(
    alloc: Global,
    room: &mut Room,
    writer: &mut W,
    desk: &mut D,
) -> io::Result<()>
    ensures line { room.new.line ≡ room.old.line }
    ensures ok { OnOk result ((text : List ℕ)
        × Exchange D.serves desk.old room.old.line text desk.new
        × Appends (W.contents writer.old) (W.contents writer.new) text) }
    ensures err { OnErr result ((text : List ℕ)
        × Exchange D.serves desk.old room.old.line text desk.new
        × AppendsFront (W.contents writer.old) (W.contents writer.new) text) }
{
    desk.line_read();
    let answer = answer(alloc, &room.line, desk);
    room.text.say(alloc, &answer);
    // A peer that reads slowly holds the text for long, and not the answer that it was made of.
    drop(answer);
    let written = put(writer, room.text.as_slice());
    room.text.let_go();
    written
}
