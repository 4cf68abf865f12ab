//! The text of an answer.
ghost use Rattle.std.specs.Prelude.{◌≡◌, ◌≤◌, List, [], ℕ, vec_capacity};
ghost use Rattle.session_threads.specs.Exchanges.{IsSaid};

use session_lines::{Answer, Refusal, say};
use std::alloc::{AllocError, Global};
use std::marker::Model;

/// The room that each short answer fits in, in bytes.
const RESERVE: usize = 128;

/// How much room is kept after an answer was written, in bytes.
const KEPT: usize = 65_536;

/// The text of one answer, with room for each short one, which so needs no memory.
#[derive(Drop)]
pub struct AnswerText {
    text: Vec<u8>,
}

impl Model for AnswerText {
    ghost Value = { List ℕ };

    ghost view = { λ a. a.text.items };

    ghost invariant = { λ a. 128 ≤ vec_capacity a.text };
}

impl AnswerText {
    /// No text yet, and the room.
    pub(crate) fn new(alloc: Global) -> Result<AnswerText, AllocError> {
        let text = Vec::with_capacity(alloc, RESERVE)?;
        Ok(AnswerText { text })
    }

    /// The text.
    pub(crate) fn as_slice(&self) -> &[u8]
        ensures { result.now ≡ self.now }
    {
        self.text.as_slice()
    }

    /// Makes this the text of an answer, or of out of memory (1) in place of a long one.
    pub(crate) fn say(&mut self, alloc: Global, answer: &Answer)
        ensures { IsSaid answer.now self.new }
    {
        self.text.clear();
        if say(alloc, answer, &mut self.text).is_err() {
            let _ = say(alloc, &Answer::Refused(Refusal::Memory), &mut self.text);
        }
    }

    /// Lets go of the text, and of the room above 64 KiB: else a session would hold its longest
    /// answer until it ends.
    pub(crate) fn let_go(&mut self)
        ensures { self.new ≡ [] }
    {
        self.text.clear();
        self.text.shrink_to(KEPT);
    }
}
