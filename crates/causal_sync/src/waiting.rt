//! The frame that a link has read and not yet given.
ghost use Rattle.std.specs.Prelude.{◌≡◌, IfOk};
ghost use Rattle.causal_sync.specs.Buffer.{clock_in};

use crate::heard::Heard;
use op_ids::Clock;
use std::alloc::AllocError;
use std::marker::Model;

/// A frame that waits to be given. Contracts see the frame.
#[derive(Drop)]
pub(crate) struct Waiting {
    heard: Heard,
    // The clock of a HAVE once more, so that giving it takes no memory.
    base: Option<Clock>,
}

impl Model for Waiting {
    ghost use Rattle.std.specs.Prelude.{◌≡◌};
    ghost use Rattle.causal_sync.specs.declared.heard.Heard.{Heard as Frame};
    ghost use Rattle.causal_sync.specs.Buffer.{clock_in};

    ghost Value = { Frame };

    ghost view = { λ w. w.heard };

    ghost invariant = { λ w. w.base ≡ clock_in w.heard };
}

impl Waiting {
    /// This frame. An error is out of memory (1).
    pub(crate) fn new(heard: Heard) -> Result<Waiting, AllocError>
        ensures { IfOk result (λ waiting. waiting ≡ heard) }
    {
        let base = match &heard {
            Heard::Have(clock) => Some(clock.copy()?),
            _ => None,
        };
        Ok(Waiting { heard, base })
    }

    /// The frame.
    pub(crate) fn heard(&self) -> &Heard
        ensures { result.now ≡ self.now }
    {
        &self.heard
    }

    /// The frame, and its clock if it is a HAVE.
    pub(crate) fn into_parts(self) -> (Heard, Option<Clock>)
        ensures heard { result.0 ≡ self }
        ensures base { result.1 ≡ clock_in self }
    {
        (self.heard, self.base)
    }
}
