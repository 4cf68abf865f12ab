//! What changed in a document.
ghost use Rattle.std.specs.Prelude.{◌≡◌, ◌≤◌, ◌++◌, ℕ, List, IfOk};
ghost use Rattle.char_sequence.specs.Content.{Holds};
ghost use Rattle.mark_anchors.specs.Keeping.{AreMarksOf};
ghost use Rattle.op_model.specs.declared.op.Op.{Op};
ghost use Rattle.op_model.specs.Changes.{changes as changes_of_ops};
ghost use Rattle.fixed_numbers.specs.declared.limits.TheConstants.{MAX_LISTED};
ghost use Rattle.span_flatten.specs.Listing.{listed_steps};
ghost use Rattle.span_flatten.specs.Since.{IsSince};

use crate::change_sweep::ChangeSweep;
use crate::error::SpansError;
use crate::plan::Plan;
use crate::since::Since;
use crate::sweep::PlacedChunk;
use char_sequence::Sequence;
use mark_anchors::Anchors;
use op_model::{ChangeStep, Ticks};

/// What changed in a document since what is noted came: steps over the text that a reader has from
/// then. They list at most 1,048,576 comment ids, one counted in each step that lists it: beyond
/// that the error is `Listing` (1), and else `Memory` (1).
///
/// No pass over the document. For each character that came or went, and for both characters of each
/// mark operation, the chunk is looked up by its hint. For each chunk of the document there is a
/// step, and one for each mark operation since. The characters of a chunk are read, at most 512,
/// only if one of them came or went, or a mark operation since may cover one. For each of these
/// there are two searches among those that came or went, and one by halves among the mark
/// operations; for each edge of one two searches among those of its key that are in force; and
/// where the chunk before it wasn't read, a step for each mark operation.
pub fn changes(
    sequence: &Sequence,
    anchors: &Anchors,
    since: &Since,
) -> Result<Vec<ChangeStep>, SpansError>
    ensures told { IfOk result (λ found. (before more : List Op) (doc : ℕ)
        → Holds sequence.now (before ++ more) doc → AreMarksOf anchors.now (before ++ more) doc
        → IsSince since.now before more doc
        → found.items ≡ changes_of_ops before (before ++ more) doc) }
    ensures few { IfOk result (λ found. listed_steps found.items ≤ MAX_LISTED) }
{
    let alloc = sequence.allocator();
    let ticks = &mut Ticks::new();
    let plan = Plan::new(alloc, sequence, anchors, since)?;
    let mut sweep = ChangeSweep::new(alloc, since, anchors.in_order())?;
    let mut i = 0;
    sequence.are_sized();
    while let Some(size) = sequence.chunk(i, ticks) {
        let placed = PlacedChunk { index: i, size };
        sweep.step(sequence, anchors, since, &plan, placed)?;
        i += 1;
    }
    Ok(sweep.into_steps())
}
