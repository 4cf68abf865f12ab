//! What follows for the calls of a reader or a writer together.
ghost use Rattle.std.specs.Prelude.{◌++◌, List, ℕ};
ghost use Rattle.web_lines.specs.Answering.{Answering, Takes};
ghost use Rattle.web_lines.specs.Reading.{Brings};
ghost use Rattle.web_lines.specs.declared.message_lines.MessageLines.{MessageLines as Lines};

use crate::answer_messages::AnswerMessages;
use crate::message_lines::MessageLines;
use std::io::{Read, Write};

/// Two calls, one after the other, bring together what each brings: the lines of the messages in
/// order, each once. So do all calls of a session. Costs nothing.
pub fn calls_add_up<S: Read + Write + Drop>(lines: &MessageLines<S>)
    ensures { (mid new : Lines S) (first second : List ℕ)
        → Brings S.contents S.remaining lines.now mid first
        → Brings S.contents S.remaining mid new second
        → Brings S.contents S.remaining lines.now new (first ++ second) }
{
    lines.ending();
}

/// An answer is sent alike in one write or in several: what two take, one after the other, is what
/// one takes of both. Costs nothing.
pub fn writes_add_up<S: Read + Write + Drop>(answers: &AnswerMessages<S>)
    ensures { (mid new : Answering S) (first second : List ℕ)
        → Takes S.contents answers.now first mid → Takes S.contents mid second new
        → Takes S.contents answers.now (first ++ second) new }
{
    answers.unsent();
}
