//! The end of a link that its two threads share.
ghost use Rattle.std.specs.Prelude.{◌≤◌, length};
ghost use Rattle.fixed_numbers.specs.declared.limits.TheConstants.{MAX_TOLD};

use crate::told::Told;
use causal_sync::{Heard, Link, LinkError, Ops};
use op_ids::{Clock, ReplicaId};
use op_model::Op;
use std::alloc::{AllocError, Global};
use std::mem;
use std::sync::{Mutex, Wait};

/// The end of a link that its two threads share, under a lock of its own.
#[derive(Drop)]
pub(crate) struct LinkEnd {
    held: Mutex<EndState>,
}

/// What a frame of the other end is to the thread that hears.
#[derive(Drop)]
pub(crate) enum Said {
    Hello(ReplicaId),
    Have {
        /// Whether it may change the base, so that other operations are due.
        is_news: bool,
        /// How many operations of this replica it counts.
        own: u64,
    },
    Ops(Ops),
    Bye,
}

#[derive(Drop)]
struct EndState {
    own: ReplicaId,
    link: Link,
    /// The replica of the other end.
    peer: Option<ReplicaId>,
    /// The clock of the last HAVE.
    heard: Option<Clock>,
    /// Whether it is another one than was taken last.
    is_new: bool,
    /// What was told since, which the base counts too.
    told: Told,
    /// Whether a HAVE counted no more than the one before it.
    is_asked_again: bool,
    /// Whether nothing more is heard, though all that is due is to be told yet.
    has_heard_all: bool,
    is_over: bool,
}

impl LinkEnd {
    /// A link of this replica. An error is out of memory (1).
    pub(crate) fn start(alloc: Global, own: ReplicaId) -> Result<LinkEnd, AllocError> {
        let link = Link::start(alloc, own)?;
        Ok(LinkEnd {
            held: Mutex::new(EndState {
                own,
                link,
                peer: None,
                heard: None,
                is_new: false,
                told: Told::nothing(),
                is_asked_again: false,
                has_heard_all: false,
                is_over: false,
            }),
        })
    }

    /// Takes bytes of the other end, as `Link::feed` does.
    pub(crate) fn feed<R: Wait>(&self, rt: &R, bytes: &[u8]) -> Result<(), LinkError> {
        self.held.lock(rt).link.feed(bytes)
    }

    /// Whether bytes begin with the HELLO that this replica says itself. Not where there is no
    /// memory to tell.
    pub(crate) fn is_own_hello(alloc: Global, own: ReplicaId, bytes: &[u8]) -> bool {
        match Link::start(alloc, own) {
            Ok(link) => {
                let mut link = link;
                bytes.starts_with(link.take_out().as_slice())
            }
            Err(AllocError) => false,
        }
    }

    /// The next frame of the other end.
    pub(crate) fn next<R: Wait>(&self, rt: &R) -> Option<Said> {
        self.held.lock(rt).next()
    }

    /// Marks that nothing more is heard: once all that is due is told, the link ends.
    pub(crate) fn end_hearing<R: Wait>(&self, rt: &R) {
        self.held.lock(rt).has_heard_all = true;
    }

    /// Whether nothing more is heard, though all that is due is to be told yet.
    pub(crate) fn has_heard_all<R: Wait>(&self, rt: &R) -> bool {
        self.held.lock(rt).has_heard_all
    }

    /// Marks that the thread that hears has ended. If all that is due is to be told yet, the other
    /// one goes on until it is.
    pub(crate) fn end_unless_due<R: Wait>(&self, rt: &R) {
        let mut held = self.held.lock(rt);
        held.is_over |= !held.has_heard_all;
    }

    /// Marks that one of the two threads has ended.
    pub(crate) fn end<R: Wait>(&self, rt: &R) {
        self.held.lock(rt).is_over = true;
    }

    /// Whether one of the two threads has ended.
    pub(crate) fn is_over<R: Wait>(&self, rt: &R) -> bool {
        self.held.lock(rt).is_over
    }

    /// Whether the other end took something of what was told, as a HAVE of it says.
    pub(crate) fn was_taken<R: Wait>(&self, rt: &R) -> bool {
        self.held.lock(rt).told.was_taken()
    }

    /// Whether a HAVE since the last call counted no more than the one before it, so that what was
    /// told is asked for again.
    pub(crate) fn take_asked_again<R: Wait>(&self, rt: &R) -> bool {
        mem::take(&mut self.held.lock(rt).is_asked_again)
    }

    /// The clock of what the other end has or was told; `None` before a HAVE was heard, and as
    /// long as nothing more is to be told before the next one.
    pub(crate) fn base<R: Wait>(&self, rt: &R) -> Result<Option<Clock>, AllocError> {
        self.held.lock(rt).base()
    }

    /// The other end's replica, and the clock of its last HAVE, if that is another one than the
    /// last time. If there is no memory for it, it is given the next time.
    pub(crate) fn take_heard<R: Wait>(&self, rt: &R) -> Option<(ReplicaId, Clock)> {
        self.held.lock(rt).take_heard()
    }

    /// Says a HAVE, as `Link::say_have` does.
    pub(crate) fn say_have<R: Wait>(&self, rt: &R, clock: &Clock) -> Result<(), LinkError> {
        self.held.lock(rt).link.say_have(clock)
    }

    /// Says operations, as `Link::say_ops` does.
    pub(crate) fn say_ops<R: Wait>(&self, rt: &R, ops: &[Op]) -> Result<(), LinkError>
        requires some { 1 ≤ length ops.now }
        requires most { length ops.now ≤ MAX_TOLD }
    {
        self.held.lock(rt).say_ops(ops)
    }

    /// Says BYE, as `Link::say_bye` does.
    pub(crate) fn say_bye<R: Wait>(&self, rt: &R) -> Result<(), LinkError> {
        self.held.lock(rt).link.say_bye()
    }

    /// The bytes of what was said and not yet taken.
    pub(crate) fn take_out<R: Wait>(&self, rt: &R) -> Vec<u8> {
        self.held.lock(rt).link.take_out()
    }
}

impl EndState {
    fn next(&mut self) -> Option<Said> {
        let said = match self.link.next()? {
            Heard::Hello(replica) => {
                self.peer = Some(replica);
                Said::Hello(replica)
            }
            Heard::Bye => Said::Bye,
            Heard::Have(clock) => Said::Have {
                own: clock.get(self.own),
                is_news: self.hear_have(clock),
            },
            Heard::Ops(ops) => Said::Ops(ops),
        };
        Some(said)
    }

    /// Keeps the clock of a HAVE, and answers whether it may change the base.
    fn hear_have(&mut self, clock: Clock) -> bool {
        let mut is_news = true;
        if let Some(heard) = &self.heard {
            // The same HAVE sets the base back if operations were said since.
            is_news = self.told.is_some() || *heard != clock;
            self.is_asked_again |= is_news && clock.is_within(heard);
        }
        self.told.hear_have(&clock);
        self.heard = Some(clock);
        self.is_new = true;
        is_news
    }

    fn take_heard(&mut self) -> Option<(ReplicaId, Clock)> {
        if !self.is_new {
            return None;
        }
        let clock = self.heard.as_ref()?.copy().ok()?;
        let peer = self.peer?;
        self.is_new = false;
        Some((peer, clock))
    }

    fn say_ops(&mut self, ops: &[Op]) -> Result<(), LinkError>
        requires some { 1 ≤ length ops.now }
        requires most { length ops.now ≤ MAX_TOLD }
    {
        self.link.say_ops(ops)?;
        self.told.add(&ops[0]);
        Ok(())
    }

    fn base(&self) -> Result<Option<Clock>, AllocError> {
        if !self.link.has_heard_have() || self.told.is_enough() {
            return Ok(None);
        }
        let base = self.link.base().copy()?;
        Ok(Some(base))
    }
}
