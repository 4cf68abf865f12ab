//! The lines of a message, which are handed on piece by piece.
ghost use Rattle.std.specs.Prelude.{◌≡◌, ◌<◌, ◌≤◌, ◌++◌, [], length, take, IsTrue, ◌↔◌};
ghost use Rattle.tungstenite.specs.Socket.{content_of};
ghost use Rattle.web_lines.specs.Lines.{line_bytes, lines_of};

use std::marker::Model;
use tungstenite::{Bytes, Message};

/// What of a message's lines wasn't handed on yet.
#[derive(Debug, Drop)]
pub struct HeldLines {
    text: Bytes,
    /// Whether a line feed follows that the message lacked.
    is_feed_due: bool,
}

/// Contracts see the bytes.
impl Model for HeldLines {
    ghost use Rattle.std.specs.Prelude.{ℕ, List, ◌++◌, ◌∷◌, [], cond};

    ghost Value = { List ℕ };

    ghost view = { λ held. held.text ++ cond held.is_feed_due (10 ∷ []) [] };
}

impl HeldLines {
    /// Nothing.
    pub(crate) fn nothing() -> HeldLines
        ensures { result ≡ [] }
    {
        HeldLines {
            text: Bytes::new(),
            is_feed_due: false,
        }
    }

    /// The lines of a message: none of one that is no text.
    pub(crate) fn of(message: Message) -> HeldLines
        ensures { result ≡ lines_of (content_of message) }
    {
        match message {
            Message::Text(text) => HeldLines::of_text(text.into_bytes()),
            Message::Binary(_bytes) | Message::Ping(_bytes) | Message::Pong(_bytes) => {
                HeldLines::nothing()
            }
            Message::Close(_frame) => HeldLines::nothing(),
        }
    }

    /// The lines of a text message.
    fn of_text(text: Bytes) -> HeldLines
        ensures { result ≡ line_bytes text }
    {
        let is_feed_due = !text.as_slice().ends_with(b"\n");
        HeldLines { text, is_feed_due }
    }

    /// Whether nothing is left.
    pub(crate) fn is_empty(&self) -> bool
        ensures { IsTrue result ↔ (self.now ≡ []) }
    {
        self.text.is_empty() && !self.is_feed_due
    }

    /// Hands on what fits into a piece, and tells how many bytes.
    pub(crate) fn hand_on(&mut self, piece: &mut [u8]) -> usize
        ensures bound { result ≤ length piece.new }
        ensures bytes { self.old ≡ take result piece.new ++ self.new }
        ensures some { result ≡ 0 → 0 < length piece.new → self.old ≡ [] }
    {
        if self.text.is_empty() && self.is_feed_due {
            self.text = Bytes::from_static(b"\n");
            self.is_feed_due = false;
        }
        let count = self.text.len().min(piece.len());
        piece[..count].copy_from_slice(&self.text.as_slice()[..count]);
        self.text.advance(count);
        count
    }
}
