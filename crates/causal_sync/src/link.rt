//! A link to a peer.
ghost use Rattle.std.specs.Prelude.{◌≡◌, ◌+◌, ◌++◌, ◌≤◌, ◌<◌, ◌↔◌, ◌⊎◌, [], Err, None, true, false};
ghost use Rattle.std.specs.Prelude.{length, OnOk, OnErr, IfOk, IfErr, IfSome, IsNone, IsErrOf};
ghost use Rattle.fixed_numbers.specs.declared.limits.TheConstants.{MAX_TOLD};
ghost use Rattle.fixed_numbers.specs.declared.sizes.TheConstants.{MAX_CONTENT};
ghost use Rattle.causal_sync.specs.declared.heard.Heard.TheVariants as frame;
ghost use Rattle.causal_sync.specs.declared.link_error.LinkError.TheVariants.{Memory, Limit, Closed};
ghost use Rattle.causal_sync.specs.Frames.{frames_bytes};
ghost use Rattle.causal_sync.specs.Hearing.{Hears};
ghost use Rattle.causal_sync.specs.Sent.{sent};
ghost use Rattle.causal_sync.specs.State.{answer_of, has_ended, is_silent, said, without_out};
ghost use Rattle.causal_sync.specs.State.{Gives, IsStart, Keeps, Sends, TakesBytes};

use crate::heard::Heard;
use crate::hearing::Hearing;
use crate::link_error::LinkError;
use crate::put_frame::{spelled_bye, spelled_have, spelled_hello, spelled_ops};
use crate::sent::clock_with;
use op_ids::{Clock, ClockError, ReplicaId};
use op_model::Op;
use op_pieces::cut;
use std::alloc::{AllocError, Global};
use std::marker::Model;
use std::mem;

/// A link to one peer: what the peer says, however its bytes are cut, and what is said to it. It
/// owns no socket: bytes are fed to it and taken out of it.
#[derive(Drop)]
pub struct Link {
    hearing: Hearing,
    // What the peer has: its last HAVE, and what it was sent since.
    base: Clock,
    has_heard_have: bool,
    out: Vec<u8>,
    has_said_bye: bool,
}

impl Model for Link {
    ghost use Rattle.causal_sync.specs.State.{LinkState};

    ghost Value = { LinkState };

    ghost view = { λ l. record {
      heard = l.hearing;
      base = l.base;
      has_heard_have = l.has_heard_have;
      out = l.out.items;
      has_said_bye = l.has_said_bye;
    } };
}

impl Link {
    /// A link of this replica, which says HELLO.
    pub fn start(alloc: Global, own: ReplicaId) -> Result<Link, AllocError>
        ensures { IfOk result (λ link. IsStart own link) }
    {
        Ok(Link {
            hearing: Hearing::new(alloc, own),
            base: Clock::new(alloc),
            has_heard_have: false,
            out: spelled_hello(alloc, own)?,
            has_said_bye: false,
        })
    }

    /// Takes bytes of the peer's stream, whole or not at all. The frames in them wait for `next`;
    /// the frames before a fault do too. The first fault of the stream is the answer of the call
    /// that brings its last byte: `BadFrame` (25), `BadHello` (26) or `Record` (30 to 36). `Closed`
    /// (27) after a fault and after a BYE, `Memory` (1) where a growth was refused; both take
    /// nothing. One pass over each frame.
    pub fn feed(&mut self, bytes: &[u8]) -> Result<(), LinkError>
        ensures closed { has_ended self.old.heard ≡ true
            → (result ≡ Err Closed) × (self.new ≡ self.old) }
        ensures memory { IsErrOf result Memory → self.new ≡ self.old }
        ensures taken { has_ended self.old.heard ≡ false → (result ≡ Err Memory)
            ⊎ (TakesBytes self.old.heard self.new.heard bytes.now
            × (result ≡ answer_of self.new.heard.fault)) }
        ensures hears { Hears self.new.heard.own self.new.heard.stream
            (self.new.heard.given ++ self.new.heard.waiting) self.new.heard.fault }
        ensures others { Keeps self.old self.new }
    {
        self.hearing.feed(bytes)
    }

    /// The next frame of the stream, or `None` where no further one is whole. Takes no memory.
    pub fn next(&mut self) -> Option<Heard>
        // The first frame that waits is given; a HAVE becomes the base.
        ensures some { IfSome result (λ frame. Gives self.old self.new frame) }

        // Once none is left, what was given is what is heard of the whole stream.
        ensures none { IsNone result → (self.new ≡ self.old) × (self.old.heard.waiting ≡ []) }
        ensures all { IsNone result
            → Hears self.old.heard.own self.old.heard.stream self.old.heard.given
            self.old.heard.fault }
    {
        let (heard, clock) = self.hearing.next()?;
        if let Some(clock) = clock {
            self.base = clock;
            self.has_heard_have = true;
        }
        Some(heard)
    }

    /// Says which operations this replica has. `Closed` (27) after a fault or a BYE of one's own,
    /// before all else; `Memory` (1). A refusal changes nothing.
    pub fn say_have(&mut self, clock: &Clock) -> Result<(), LinkError>
        ensures ok { OnOk result (self.new ≡ said self.old (frame.Have clock.now)) }
        ensures err { OnErr result (self.new ≡ self.old) }
        ensures kinds { IfErr result (λ e. (e ≡ Closed) ⊎ (e ≡ Memory)) }
        ensures closed { IsErrOf result Closed ↔ (is_silent self.old ≡ true) }
    {
        if self.is_silent() {
            return Err(LinkError::Closed);
        }
        let bytes = spelled_have(*self.out.allocator(), clock)?;
        self.out.extend_from_slice(&bytes)?;
        Ok(())
    }

    /// Says 1 to `MAX_TOLD` operations, cut into pieces, and counts them as had by the peer.
    /// `Closed` (27) after a fault or a BYE of one's own, before all else; `Limit` (7) where the
    /// base would name a seventeenth replica or hold a count above 2^24; `Memory` (1), which may
    /// stand in place of 7. A refusal changes nothing.
    pub fn say_ops(&mut self, ops: &[Op]) -> Result<(), LinkError>
        requires some { 1 ≤ length ops.now }
        requires most { length ops.now ≤ MAX_TOLD }
        ensures ok { OnOk result (Sends self.old self.new ops.now) }
        ensures err { OnErr result (self.new ≡ self.old) }
        ensures closed { IsErrOf result Closed ↔ (is_silent self.old ≡ true) }
        ensures kinds { IfErr result (λ e. (e ≡ Closed) ⊎ ((e ≡ Memory)
            ⊎ ((e ≡ Limit) × (sent self.old.base ops.now ≡ None)))) }
    {
        if self.is_silent() {
            return Err(LinkError::Closed);
        }
        let alloc = *self.out.allocator();
        match clock_with(alloc, &self.base, ops) {
            Ok(clock) => {
                let bytes = spelled_ops(alloc, &cut(alloc, ops)?)?;
                self.out.extend_from_slice(&bytes)?;
                self.base = clock;
                Ok(())
            }
            Err(ClockError::Limit) => Err(LinkError::Limit),
            Err(ClockError::Memory) => Err(LinkError::Memory),
        }
    }

    /// Says BYE: nothing more is said. `Closed` (27) after a fault or a BYE of one's own, before
    /// all else; `Memory` (1). A refusal changes nothing.
    pub fn say_bye(&mut self) -> Result<(), LinkError>
        ensures ok { OnOk result (self.new ≡ said self.old frame.Bye) }
        ensures err { OnErr result (self.new ≡ self.old) }
        ensures kinds { IfErr result (λ e. (e ≡ Closed) ⊎ (e ≡ Memory)) }
        ensures closed { IsErrOf result Closed ↔ (is_silent self.old ≡ true) }
    {
        if self.is_silent() {
            return Err(LinkError::Closed);
        }
        let bytes = spelled_bye(*self.out.allocator())?;
        self.out.extend_from_slice(&bytes)?;
        self.has_said_bye = true;
        Ok(())
    }

    /// The bytes of all frames that were said and not yet taken. Takes no memory.
    pub fn take_out(&mut self) -> Vec<u8>
        ensures out { result.items ≡ self.old.out }
        ensures taken { self.new ≡ without_out self.old }
    {
        let alloc = *self.out.allocator();
        mem::replace(&mut self.out, Vec::new(alloc))
    }

    /// The clock of the last HAVE that was given, joined with the operations said since.
    pub fn base(&self) -> &Clock
        ensures { result.now ≡ self.now.base }
    {
        &self.base
    }

    /// Whether a HAVE was given: no operations are due before the first.
    pub fn has_heard_have(&self) -> bool
        ensures { result ≡ self.now.has_heard_have }
    {
        self.has_heard_have
    }

    /// How many bytes the unfinished frame has so far: always fewer than a longest frame has, and
    /// none once the stream has ended.
    pub fn held(&self) -> usize
        ensures few { result < 4 + MAX_CONTENT }
        ensures behind { has_ended self.now.heard ≡ false
            → length (frames_bytes (self.now.heard.given ++ self.now.heard.waiting)) + result
            ≡ length self.now.heard.stream }
        ensures none { has_ended self.now.heard ≡ true → result ≡ 0 }
    {
        self.hearing.held()
    }

    /// Whether nothing more may be said.
    fn is_silent(&self) -> bool
        ensures { result ≡ is_silent self.now }
    {
        self.hearing.is_faulty() || self.has_said_bye
    }
}
