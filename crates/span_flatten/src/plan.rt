//! What is looked up before a pass that tells what changed.
ghost use Rattle.std.specs.Prelude.{◌≡◌, ◌≤◌, length, IfOk};
ghost use Rattle.mark_anchors.specs.Keeping.{in_order};
ghost use Rattle.std.specs.List.{list_any};
ghost use Rattle.span_flatten.specs.Spots.{may_cover};
ghost use Rattle.span_flatten.specs.Passing.{is_quiet as quiet, IsPlan};

use crate::since::Since;
use crate::spot::{Spot, spots};
use crate::touched::Touched;
use char_sequence::Sequence;
use mark_anchors::Anchors;
use std::alloc::{AllocError, Global};

/// Where each mark operation is in force, and which chunks have a character that came or went.
#[derive(Drop)]
pub struct Plan {
    pub spots: Vec<Spot>,
    pub touched: Touched,
}

impl Plan {
    /// That of a document. An error is out of memory (1). A search for both characters of each mark
    /// operation, and for each character that came or went.
    pub(crate) fn new(
        alloc: Global,
        sequence: &Sequence,
        anchors: &Anchors,
        since: &Since,
    ) -> Result<Plan, AllocError>
        ensures { IfOk result (λ p. IsPlan p sequence.now since.now (in_order anchors.now)) }
    {
        Ok(Plan {
            spots: spots(alloc, sequence, anchors.in_order())?,
            touched: Touched::new(alloc, sequence, since)?,
        })
    }

    /// Whether nothing changed in a chunk, where so many mark operations came before. A step for
    /// each mark operation since.
    pub(crate) fn is_quiet(&self, older: usize, chunk: usize) -> bool
        requires { older ≤ length self.now.spots.items }
        ensures { result ≡ quiet self.now older chunk }
    {
        !self.touched.has(chunk) && !may_some_cover(&self.spots[older..], chunk)
    }
}

/// Whether some mark operation may cover a character of a chunk.
fn may_some_cover(spots: &[Spot], chunk: usize) -> bool
    ensures { result ≡ list_any (may_cover chunk) spots.now }
{
    spots.iter().any(|spot| spot.may_cover(chunk))
}
