//! A shared hub, as a peer that tells.

use link_speaker::Peer;
use op_ids::Clock;
use op_model::Op;
use pass_books::BookNames;
use shared_hub::{Pass, Shared};
use std::alloc::AllocError;
use std::marker::Model;
use std::sync::Wait;

/// A shared hub, as a peer that tells, with the pass of the thread that does. Each call holds the
/// hub's lock once, and enters the moment at which it did. Contracts see the pass.
#[derive(Drop)]
pub(crate) struct SharedPeer<'a, R: Wait, J: BookNames> {
    rt: &'a R,
    shared: &'a Shared<J>,
    pass: &'a mut Pass<J>,
}

impl<'a, R: Wait, J: BookNames> Model for SharedPeer<'a, R, J> {
    ghost use Rattle.shared_hub.specs.Books.{PassHeld};

    ghost Value = { PassHeld };

    ghost view = { λ p. p.pass.now };
}

impl<'a, R: Wait, J: BookNames> SharedPeer<'a, R, J> {
    /// This hub, with this pass.
    pub(crate) fn new(
        rt: &'a R,
        shared: &'a Shared<J>,
        pass: &'a mut Pass<J>,
    ) -> SharedPeer<'a, R, J> {
        SharedPeer { rt, shared, pass }
    }
}

impl<'a, R: Wait, J: BookNames> Peer for SharedPeer<'a, R, J> {
    ghost use Rattle.link_threads.specs.Telling.{Has, Tells};

    ghost has = { Has };

    ghost tells = { Tells };

    fn have(&mut self) -> Result<Clock, AllocError> {
        match self.shared.have(self.rt, self.pass) {
            Ok(clock) => Ok(clock),
            Err(_) => Err(AllocError),
        }
    }

    fn tell(&mut self, clock: &Clock) -> Result<Vec<Op>, AllocError> {
        match self.shared.tell(self.rt, self.pass, clock) {
            Ok(ops) => Ok(ops),
            Err(_) => Err(AllocError),
        }
    }
}
