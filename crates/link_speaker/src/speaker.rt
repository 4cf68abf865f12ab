//! Saying what is due over a link.
ghost use Rattle.std.specs.Prelude.{◌≡◌, Some, None, false, IfOk, IfErr, OnOk, OnErr};
ghost use Rattle.link_speaker.specs.Speaking.{is_due, SpeaksHave, IsHaveUnsaid};
ghost use Rattle.link_speaker.specs.Outcomes.{Spoke, Stopped};

use crate::line::Line;
use crate::peer::Peer;
use crate::speak_error::SpeakError;
use crate::speak_ops::speak_ops;
use crate::writing::write_out;
use op_ids::Clock;
use std::alloc::Global;
use std::io::Write;
use std::marker::Model;

/// What the writing thread of a link remembers: the clock of the last HAVE that it said, if it said
/// one.
#[derive(Drop)]
pub struct Speaker {
    alloc: Global,
    said: Option<Clock>,
}

impl Model for Speaker {
    ghost use Rattle.std.specs.Prelude.{List, Option, ℕ};

    ghost Value = { Option (List (ℕ × ℕ)) };

    ghost view = { λ s. s.said };
}

impl Speaker {
    /// One that has said no HAVE.
    pub fn new(alloc: Global) -> Speaker
        ensures { result ≡ None }
    {
        Speaker { alloc, said: None }
    }

    /// Says once what is due, and writes it: a HAVE of the peer's clock, where that is asked for or
    /// it isn't the clock said last; behind it an OPS of the first operations that the line's base
    /// lacks, if there are any. Answers whether there were, so that more may be due at once.
    ///
    /// `Memory` (1), and `Link` where the line refuses a frame (27, or 7 for an OPS): the HAVE may
    /// have been said, and waits in the line; nothing is written. `Stream` where the writer fails:
    /// all was said, and a beginning of it is written. In each case the HAVE that is remembered is
    /// the last one that was said. Six calls of peer and line at most, beside the writing.
    pub fn speak<P: Peer, L: Line, W: Write>(
        &mut self,
        peer: &mut P,
        line: &mut L,
        writer: &mut W,
        is_have_due: bool,
    ) -> Result<bool, SpeakError>
        ensures ok { IfOk result (Spoke P.Peer L.Line is_have_due self.old self.new
            peer.old peer.new line.old line.new
            (W.contents writer.old) (W.contents writer.new)) }
        ensures err { IfErr result (Stopped P.Peer L.Line is_have_due self.old self.new
            peer.old peer.new line.old line.new
            (W.contents writer.old) (W.contents writer.new)) }
    {
        self.speak_have(peer, line, is_have_due)?;
        let has_told = speak_ops(self.alloc, peer, line)?;
        match write_out(line, writer) {
            Ok(_) => Ok(has_told),
            Err(error) => Err(SpeakError::Stream(error)),
        }
    }

    /// Says a HAVE of the peer's clock, where one is due, and remembers it.
    fn speak_have<P: Peer, L: Line>(
        &mut self,
        peer: &mut P,
        line: &mut L,
        is_have_due: bool,
    ) -> Result<(), SpeakError>
        ensures ok { OnOk result (SpeaksHave P.Peer L.Line is_have_due self.old self.new
            peer.old peer.new line.old line.new) }
        ensures err { IfErr result (IsHaveUnsaid P.Peer L.Line is_have_due self.old
            peer.old peer.new line.old) }
        ensures same { OnErr result ((self.new ≡ self.old) × (line.new ≡ line.old)) }
    {
        let clock = peer.have()?;
        if self.is_due(&clock, is_have_due) {
            line.say_have(&clock)?;
            self.said = Some(clock);
        }
        Ok(())
    }

    /// Whether a HAVE of this clock is due: one is asked for, or it isn't the clock said last.
    fn is_due(&self, clock: &Clock, is_have_due: bool) -> bool
        ensures due { result ≡ is_due is_have_due self.now clock.now }
        ensures same { result ≡ false → self.now ≡ Some clock.now }
    {
        match &self.said {
            Some(said) if *said == *clock => is_have_due,
            _ => true,
        }
    }
}
