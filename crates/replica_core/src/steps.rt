//! The steps that a replica made since it was opened.
ghost use Rattle.std.specs.Prelude.{◌≡◌, ◌+◌, ◌<◌, nat_le, [], ◌∷◌, length};
ghost use Rattle.replica_core.specs.Steps.{kept_of};

use crate::step::Step;
use fixed_numbers::limits::MAX_STEPS;
use ghost_lists::Written;
use std::fmt;
use std::marker::Model;

/// The steps that a replica made since it was opened. Contracts see them, newest first; memory
/// holds their number alone.
#[derive(Drop)]
pub struct Steps {
    made: Written<Step>,
    count: usize,
}

impl Model for Steps {
    ghost use Rattle.std.specs.Prelude.{◌≡◌, List, length};
    ghost use Rattle.op_model.specs.Replay.{Kept};
    ghost use Rattle.replica_core.specs.Steps.{kept};

    ghost Value = { List Kept };

    ghost view = { λ s. kept s.made.items };

    ghost invariant = { λ s. s.count ≡ length s.made.items };
}

impl fmt::Debug for Steps {
    fn fmt<W: fmt::Write>(&self, f: &mut fmt::Formatter<W>) -> fmt::Result {
        fmt::Debug::fmt(&self.count, f)
    }
}

impl Steps {
    /// None so far.
    pub(crate) fn new() -> Steps
        ensures { result ≡ [] }
    {
        Steps {
            made: Written::new(),
            count: 0,
        }
    }

    /// One more, for which there is a place. Takes no memory.
    pub(crate) fn push(&mut self, step: Step)
        requires { length self.old < MAX_STEPS }
        ensures { self.new ≡ kept_of step ∷ self.old }
    {
        self.made = self.made.and(&[step]);
        self.count += 1;
    }

    /// How many. Constant.
    pub(crate) fn count(&self) -> usize
        ensures { result ≡ length self.now }
    {
        self.count
    }

    /// Whether there are places for a step and for two settlements behind it.
    pub(crate) fn has_places(&self) -> bool
        ensures { result ≡ nat_le (length self.now + 3) MAX_STEPS }
    {
        self.count <= MAX_STEPS - 3
    }
}
