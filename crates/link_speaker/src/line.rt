//! What frames are said over.
ghost use Rattle.std.specs.Prelude.{◌≡◌, ◌≤◌, length, IfOk, IfErr, OnOk, OnErr};
ghost use Rattle.fixed_numbers.specs.declared.limits.TheConstants.{MAX_TOLD};
ghost use Rattle.op_pieces.specs.Cutting.{cut};
ghost use Rattle.causal_sync.specs.declared.heard.Heard.TheVariants as frame;

use causal_sync::LinkError;
use op_ids::Clock;
use op_model::Op;
use std::alloc::{AllocError, Global};

/// Our end of a link, over which frames are said. Whether a call waits meanwhile, as for a lock, is
/// its own matter: it holds nothing between two calls.
pub trait Line {
    ghost use Rattle.std.specs.Prelude.{List, Option, ℕ};
    ghost use Rattle.causal_sync.specs.declared.heard.Heard.{Heard};
    ghost use Rattle.causal_sync.specs.declared.link_error.LinkError.{LinkError};

    /// This frame may be said: the line before, the frame, the line after.
    ghost says: { Self → Heard → Self → Type 0 };

    /// This frame may be refused so, which changes nothing: the line, the frame, the refusal.
    ghost refuses: { Self → Heard → LinkError → Type 0 };

    /// This may be the clock of what the other end has or was told, or none before a HAVE of it was
    /// heard: the line before, the clock, the line after.
    ghost has_base: { Self → Option (List (ℕ × ℕ)) → Self → Type 0 };

    /// These bytes may be taken out: the line before, the bytes, the line after.
    ghost gives: { Self → List ℕ → Self → Type 0 };

    /// The clock of what the other end has or was told; `None` before a HAVE was heard. Out of
    /// memory changes nothing.
    fn base(&mut self, alloc: Global) -> Result<Option<Clock>, AllocError>
        ensures ok { IfOk result (λ base. has_base self.old base self.new) }
        ensures err { OnErr result (self.new ≡ self.old) };

    /// Says which operations are had here. A refusal changes nothing.
    fn say_have(&mut self, clock: &Clock) -> Result<(), LinkError>
        ensures ok { OnOk result (says self.old (frame.Have clock.now) self.new) }
        ensures refused { IfErr result (refuses self.old (frame.Have clock.now)) }
        ensures err { OnErr result (self.new ≡ self.old) };

    /// Says 1 to `MAX_TOLD` operations, cut into pieces. A refusal changes nothing.
    fn say_ops(&mut self, ops: &[Op]) -> Result<(), LinkError>
        requires some { 1 ≤ length ops.now }
        requires most { length ops.now ≤ MAX_TOLD }
        ensures ok { OnOk result (says self.old (frame.Ops (cut ops.now)) self.new) }
        ensures refused { IfErr result (refuses self.old (frame.Ops (cut ops.now))) }
        ensures err { OnErr result (self.new ≡ self.old) };

    /// Says that nothing more is said. A refusal changes nothing.
    fn say_bye(&mut self) -> Result<(), LinkError>
        ensures ok { OnOk result (says self.old frame.Bye self.new) }
        ensures refused { IfErr result (refuses self.old frame.Bye) }
        ensures err { OnErr result (self.new ≡ self.old) };

    /// The bytes of what was said and not yet taken.
    fn take_out(&mut self) -> Vec<u8>
        ensures { gives self.old result.items self.new };
}
