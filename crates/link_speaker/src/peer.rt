//! Who has operations to tell.
ghost use Rattle.std.specs.Prelude.{◌≡◌, ◌≤◌, length, IfOk, OnErr};
ghost use Rattle.fixed_numbers.specs.declared.limits.TheConstants.{MAX_TOLD};

use op_ids::Clock;
use op_model::Op;
use std::alloc::AllocError;

/// One that has operations, some of which are settled. Whether a call waits meanwhile, as for a
/// lock, is its own matter: it holds nothing between two calls.
pub trait Peer {
    ghost use Rattle.std.specs.Prelude.{List, ℕ};
    ghost use Rattle.op_model.specs.declared.op.Op.{Op};

    /// It may give this clock as that of what it has settled: the peer before, the clock, the peer
    /// after.
    ghost has: { Self → List (ℕ × ℕ) → Self → Type 0 };

    /// It may tell these operations to one that has what this clock counts: the peer before, the
    /// clock, the operations, the peer after.
    ghost tells: { Self → List (ℕ × ℕ) → List Op → Self → Type 0 };

    /// The clock of what is settled. Out of memory changes nothing.
    fn have(&mut self) -> Result<Clock, AllocError>
        ensures ok { IfOk result (λ clock. has self.old clock self.new) }
        ensures err { OnErr result (self.new ≡ self.old) };

    /// The first settled operations that a clock doesn't count, at most `MAX_TOLD`. Out of memory
    /// changes nothing.
    fn tell(&mut self, clock: &Clock) -> Result<Vec<Op>, AllocError>
        ensures ok { IfOk result (λ ops. tells self.old clock.now ops.items self.new) }
        ensures most { IfOk result (λ ops. length ops.items ≤ MAX_TOLD) }
        ensures err { OnErr result (self.new ≡ self.old) };
}
