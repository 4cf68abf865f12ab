//! What a link hears.
ghost use Rattle.std.specs.Prelude.{◌≡◌, ◌+◌, ◌<◌, ◌≤◌, ◌⊎◌, [], ◌++◌, Err, None, IfSome, IsErrOf, IsNone, length, drop, true, false};
ghost use Rattle.fixed_numbers.specs.declared.sizes.TheConstants.{MAX_CONTENT};
ghost use Rattle.causal_sync.specs.declared.link_error.LinkError.TheVariants.{Memory, Closed};
ghost use Rattle.causal_sync.specs.Frames.{frames_bytes};
ghost use Rattle.causal_sync.specs.Hearing.{Hears};
ghost use Rattle.causal_sync.specs.State.{answer_of, has_ended, is_fault, Gave, Starts, TakesBytes};
ghost use Rattle.causal_sync.specs.Buffer.{clock_in};

use crate::heard::Heard;
use crate::link_error::LinkError;
use crate::take_frame::take_frames;
use crate::waiting::Waiting;
use bytes::BytesMut;
use ghost_lists::Written;
use op_ids::{Clock, ReplicaId};
use std::alloc::Global;
use std::collections::VecDeque;
use std::marker::Model;
use std::slice;

/// The stream of a peer: its frames, and the bytes of the unfinished one.
#[derive(Drop)]
pub(crate) struct Hearing {
    own: ReplicaId,
    stream: Written<u8>,
    given: Written<Heard>,
    waiting: VecDeque<Waiting>,
    // The bytes behind the frames: the buffer holds them while the stream goes on.
    rest: Written<u8>,
    buffer: BytesMut,
    // Whether no frame was heard so far.
    is_first: bool,
    has_ended: bool,
    fault: Option<LinkError>,
}

impl Model for Hearing {
    ghost use Rattle.causal_sync.specs.State.{Incoming};
    ghost use Rattle.causal_sync.specs.Buffer.{IsHeard};

    ghost Value = { Incoming };

    ghost view = { λ h. record {
      own = h.own;
      stream = h.stream.items;
      given = h.given.items;
      waiting = h.waiting.items;
      fault = h.fault;
    } };

    ghost invariant = { λ h. IsHeard (record {
      own = h.own;
      stream = h.stream.items;
      given = h.given.items;
      waiting = h.waiting.items;
      fault = h.fault;
    }) h.rest.items h.buffer.items h.is_first h.has_ended };
}

impl Hearing {
    /// Nothing heard so far.
    pub(crate) fn new(alloc: Global, own: ReplicaId) -> Hearing
        ensures { Starts own result }
    {
        Hearing {
            own,
            stream: Written::new(),
            given: Written::new(),
            waiting: VecDeque::new(alloc),
            rest: Written::new(),
            buffer: BytesMut::new(alloc),
            is_first: true,
            has_ended: false,
            fault: None,
        }
    }

    /// Takes bytes of the stream, all of them or none.
    pub(crate) fn feed(&mut self, bytes: &[u8]) -> Result<(), LinkError>
        ensures closed { has_ended self.old ≡ true
            → (result ≡ Err Closed) × (self.new ≡ self.old) }
        ensures memory { IsErrOf result Memory → self.new ≡ self.old }
        ensures taken { has_ended self.old ≡ false → (result ≡ Err Memory)
            ⊎ (TakesBytes self.old self.new bytes.now × (result ≡ answer_of self.new.fault)) }
        ensures hears { Hears self.new.own self.new.stream (self.new.given ++ self.new.waiting)
            self.new.fault }
    {
        if self.has_ended {
            return Err(LinkError::Closed);
        }
        let alloc = *self.waiting.allocator();
        let held = self.buffer.len();
        self.buffer.extend_from_slice(bytes)?;
        let taken = take_frames(alloc, self.own, self.is_first, self.buffer.as_slice());
        let Ok(mut found) = taken else {
            self.buffer.truncate(held);
            return Err(LinkError::Memory);
        };
        if self.waiting.append(&mut found.frames).is_err() {
            self.buffer.truncate(held);
            return Err(LinkError::Memory);
        }
        let (_, behind) = self.buffer.as_slice().split_at(found.used);
        self.rest = Written::new().and(behind);
        self.stream = self.stream.and(bytes);
        self.is_first = found.is_first;
        self.has_ended = found.has_ended();
        self.fault = found.fault;
        leave(&mut self.buffer, found.used, self.has_ended);
        answer(self.fault)
    }

    /// The next frame, and its clock if it is a HAVE; `None` where none waits. Takes no memory.
    pub(crate) fn next(&mut self) -> Option<(Heard, Option<Clock>)>
        ensures some { IfSome result (λ x. Gave self.old self.new x.0 × (x.1 ≡ clock_in x.0)) }
        ensures none { IsNone result → (self.new ≡ self.old) × (self.old.waiting ≡ []) }
        ensures all { IsNone result
            → Hears self.old.own self.old.stream self.old.given self.old.fault }
    {
        let waiting = self.waiting.pop_front()?;
        self.given = self.given.and(slice::from_ref(waiting.heard()));
        Some(waiting.into_parts())
    }

    /// How many bytes the unfinished frame has so far: always fewer than a longest frame has.
    pub(crate) fn held(&self) -> usize
        ensures few { result < 4 + MAX_CONTENT }
        ensures behind { has_ended self.now ≡ false
            → length (frames_bytes (self.now.given ++ self.now.waiting)) + result
            ≡ length self.now.stream }
        ensures none { has_ended self.now ≡ true → result ≡ 0 }
    {
        self.buffer.len()
    }

    /// Whether there was a fault.
    pub(crate) fn is_faulty(&self) -> bool
        ensures { result ≡ is_fault self.now.fault }
    {
        self.fault.is_some()
    }
}

/// Drops the bytes that frames took, or all once the stream has ended.
fn leave(buffer: &mut BytesMut, used: usize, has_ended: bool)
    requires { used ≤ length buffer.old.items }
    ensures going { has_ended ≡ false → buffer.new.items ≡ drop used buffer.old.items }
    ensures closed { has_ended ≡ true → buffer.new.items ≡ [] }
{
    if has_ended {
        buffer.clear();
    } else {
        buffer.advance(used);
    }
}

/// The answer to bytes that were taken.
fn answer(fault: Option<LinkError>) -> Result<(), LinkError>
    ensures { result ≡ answer_of fault }
{
    match fault {
        None => Ok(()),
        Some(fault) => Err(fault),
    }
}
