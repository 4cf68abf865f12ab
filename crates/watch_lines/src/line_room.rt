//! The room of one line.
ghost use Rattle.std.specs.Prelude.{◌≡◌, ◌≤◌, false, List, ℕ, vec_capacity};
ghost use Rattle.session_lines.specs.Saying.{said, said_watched, is_long};

use session_lines::{Answer, put_watched, say};
use std::alloc::{AllocError, Global};
use std::marker::Model;

/// The room that each short answer fits in, in bytes.
const RESERVE: usize = 128;

/// One line, with room for each short answer, which so needs no memory.
#[derive(Drop)]
pub struct LineRoom {
    text: Vec<u8>,
}

/// Contracts see the line.
impl Model for LineRoom {
    ghost Value = { List ℕ };

    ghost view = { λ room. room.text.items };

    ghost invariant = { λ room. 128 ≤ vec_capacity room.text };
}

impl LineRoom {
    /// No line yet, and the room. An error is out of memory (1).
    pub fn new(alloc: Global) -> Result<LineRoom, AllocError> {
        let text = Vec::with_capacity(alloc, RESERVE)?;
        Ok(LineRoom { text })
    }

    /// The line.
    pub fn as_slice(&self) -> &[u8]
        ensures { result.now ≡ self.now }
    {
        self.text.as_slice()
    }

    /// Makes this the line of an answer that needs no memory.
    pub fn say(&mut self, alloc: Global, answer: &Answer)
        requires { is_long answer.now ≡ false }
        ensures { self.new ≡ said answer.now }
    {
        self.text.clear();
        let _ = say(alloc, answer, &mut self.text);
    }

    /// Makes this the line of one of several documents.
    pub fn say_watched(&mut self, doc: u32, rev: u64)
        ensures { self.new ≡ said_watched doc rev }
    {
        self.text.clear();
        put_watched(doc, rev, &mut self.text);
    }
}
