//! Laws of frames: calls that do nothing, and whose contracts are the laws.
ghost use Rattle.std.specs.Prelude.{◌≡◌, ◌≤◌, ◌++◌, ℕ, Bool, List, length, Option, Ok, Some, false, true};
ghost use Rattle.fixed_numbers.specs.declared.limits.TheConstants.{MAX_TOLD};
ghost use Rattle.op_model.specs.declared.op.Op.{Op as Operation};
ghost use Rattle.op_pieces.specs.Cutting.{cut};
ghost use Rattle.change_codec.specs.Stream.{AreOperations};
ghost use Rattle.causal_sync.specs.declared.heard.Heard.{Heard as Frame};
ghost use Rattle.causal_sync.specs.declared.heard.Heard.TheVariants as frame;
ghost use Rattle.causal_sync.specs.declared.link_error.LinkError.{LinkError as Fault};
ghost use Rattle.causal_sync.specs.Frames.{frame_bytes, is_over, IsFrame};
ghost use Rattle.causal_sync.specs.Hearing.{Hears};
ghost use Rattle.causal_sync.specs.Reading.{frame_at};

/// What is spelled is read, whatever follows it.
pub fn spelled_is_read()
    ensures { (own : ℕ) (first : Bool) (frame : Frame) (rest : List ℕ) → IsFrame own first frame
        → frame_at own first (frame_bytes frame ++ rest)
        ≡ Ok (Some (frame, length (frame_bytes frame))) }
{}

/// A replica hears one list of frames of a stream, and one fault or none.
pub fn a_stream_is_heard_in_one_way()
    ensures { (own : ℕ) (stream : List ℕ) (a b : List Frame) (e f : Option Fault)
        → Hears own stream a e → Hears own stream b f → (a ≡ b) × (e ≡ f) }
{}

/// What follows the first fault of a stream isn't heard.
pub fn nothing_is_heard_behind_a_fault()
    ensures { (own : ℕ) (stream more : List ℕ) (frames : List Frame) (fault : Fault)
        → Hears own stream frames (Some fault) → Hears own (stream ++ more) frames (Some fault) }
{}

/// What follows a BYE isn't heard.
pub fn nothing_is_heard_behind_a_bye()
    ensures { (own : ℕ) (stream more : List ℕ) (frames : List Frame) (fault : Option Fault)
        → is_over frames ≡ true → Hears own stream frames fault
        → Hears own (stream ++ more) frames fault }
{}

/// 1 to `MAX_TOLD` operations, cut into pieces, are a frame that each replica may hear behind the
/// first one.
pub fn operations_are_told_in_one_frame()
    ensures { (own : ℕ) (ops : List Operation) → 1 ≤ length ops → length ops ≤ MAX_TOLD
        → AreOperations ops → IsFrame own false (frame.Ops (cut ops)) }
{}
