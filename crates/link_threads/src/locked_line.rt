//! A link that two threads share, as a line.

use crate::link_end::LinkEnd;
use causal_sync::LinkError;
use link_speaker::Line;
use op_ids::Clock;
use op_model::Op;
use std::alloc::{AllocError, Global};
use std::sync::Wait;

/// A link that two threads share, as a line. Each call holds the link's lock once. What another
/// thread does meanwhile, no contract knows.
#[derive(Drop)]
pub(crate) struct LockedLine<'a, R: Wait> {
    pub rt: &'a R,
    pub end: &'a LinkEnd,
}

impl<'a, R: Wait> Line for LockedLine<'a, R> {
    ghost says = { λ old frame new. Unit {0} };

    ghost refuses = { λ old frame refusal. Unit {0} };

    ghost has_base = { λ old base new. Unit {0} };

    ghost gives = { λ old bytes new. Unit {0} };

    fn base(&mut self, _alloc: Global) -> Result<Option<Clock>, AllocError> {
        self.end.base(self.rt)
    }

    fn say_have(&mut self, clock: &Clock) -> Result<(), LinkError> {
        self.end.say_have(self.rt, clock)
    }

    fn say_ops(&mut self, ops: &[Op]) -> Result<(), LinkError> {
        self.end.say_ops(self.rt, ops)
    }

    fn say_bye(&mut self) -> Result<(), LinkError> {
        self.end.say_bye(self.rt)
    }

    fn take_out(&mut self) -> Vec<u8> {
        self.end.take_out(self.rt)
    }
}
