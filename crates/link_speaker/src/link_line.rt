//! A link that is held alone, as a line.

use crate::line::Line;
use causal_sync::{Link, LinkError};
use op_ids::Clock;
use op_model::Op;
use std::alloc::{AllocError, Global};

impl Line for Link {
    ghost use Rattle.link_speaker.specs.LinkLine.{LinkSays, LinkRefuses, LinkHasBase, LinkGives};

    ghost says = { LinkSays };

    ghost refuses = { LinkRefuses };

    ghost has_base = { LinkHasBase };

    ghost gives = { LinkGives };

    fn base(&mut self, _alloc: Global) -> Result<Option<Clock>, AllocError> {
        if !self.has_heard_have() {
            return Ok(None);
        }
        let base = Link::base(self).copy()?;
        Ok(Some(base))
    }

    fn say_have(&mut self, clock: &Clock) -> Result<(), LinkError> {
        Link::say_have(self, clock)
    }

    fn say_ops(&mut self, ops: &[Op]) -> Result<(), LinkError> {
        Link::say_ops(self, ops)
    }

    fn say_bye(&mut self) -> Result<(), LinkError> {
        Link::say_bye(self)
    }

    fn take_out(&mut self) -> Vec<u8> {
        Link::take_out(self)
    }
}
