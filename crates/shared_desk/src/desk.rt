//! A desk of one session over a shared hub.
ghost use Rattle.std.specs.Prelude.{◌≡◌};

use crate::ending::Ending;
use pass_books::BookNames;
use shared_hub::{Checkpoint, Pass, Shared};
use std::marker::Model;
use std::sync::{Mutex, Wait};

/// What the desks of one daemon share: the hub, whose turn it is to read, and whether the daemon
/// was asked to end.
#[derive(Drop)]
pub struct Daemon<'a, R: Wait, J: BookNames, C: Checkpoint> {
    pub rt: &'a R,
    pub shared: &'a Shared<J>,
    /// Whoever has it may read a text or spans.
    pub read_turn: &'a Mutex<()>,
    pub ending: &'a Ending,
    pub checkpoint: &'a C,
}

/// A desk of one session over a shared hub, with the session's pass. A stop asks the daemon to end.
/// Contracts see the pass: what it has entered are the kept steps of its number.
#[derive(Drop)]
pub struct SharedDesk<'a, R: Wait, J: BookNames, C: Checkpoint> {
    pub(crate) daemon: Daemon<'a, R, J, C>,
    pub(crate) pass: Pass<J>,
}

impl<'a, R: Wait, J: BookNames, C: Checkpoint> Model for SharedDesk<'a, R, J, C> {
    ghost use Rattle.shared_hub.specs.Books.{PassHeld};

    ghost Value = { PassHeld };

    ghost view = { λ d. d.pass };
}

impl<'a, R: Wait, J: BookNames, C: Checkpoint> SharedDesk<'a, R, J, C> {
    /// The desk of a session of this daemon, with this pass, which is counted from now on.
    pub fn new(daemon: Daemon<'a, R, J, C>, pass: Pass<J>) -> SharedDesk<'a, R, J, C>
        ensures { result ≡ pass }
    {
        daemon.shared.note_session(daemon.rt);
        SharedDesk { daemon, pass }
    }

    /// The pass, of which the desk lets go; the session is counted no more.
    pub fn into_pass(self) -> Pass<J>
        ensures { result ≡ self.entry }
    {
        let SharedDesk { daemon, pass } = self;
        daemon.shared.forget_session(daemon.rt);
        pass
    }
}
