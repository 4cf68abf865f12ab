//! At which chunks mark operations are in force.
ghost use Rattle.std.specs.Prelude.{◌≡◌, ℕ, IfOk, nat_le, take};
ghost use Rattle.char_sequence.specs.Cells.{has_cell};
ghost use Rattle.char_sequence.specs.Chunks.{cells_of};
ghost use Rattle.span_flatten.specs.Spots.{begun_before, ended_before, id_of, may_cover as covers};
ghost use Rattle.span_flatten.specs.Spots.{AreSpots, IsBorder, IsSpot};

use char_sequence::Sequence;
use op_ids::OpId;
use op_model::{Anchor, End, Marking, Start};
use std::alloc::{AllocError, Global};

/// No chunk has so many before it.
const NEVER: usize = usize::MAX;

/// The first chunk at whose beginning a mark operation has begun, and the first one at whose
/// beginning it has ended.
#[derive(Clone, Copy)]
pub struct Spot {
    pub from: usize,
    pub to: usize,
}

impl Spot {
    /// Whether the mark operation may cover a character of a chunk.
    pub(crate) fn may_cover(&self, chunk: usize) -> bool
        ensures { result ≡ covers chunk self.now }
    {
        self.from.saturating_sub(1) <= chunk && chunk < self.to
    }
}

/// The spots of mark operations. An error is out of memory (1). A search for both characters of
/// each.
pub(crate) fn spots(
    alloc: Global,
    sequence: &Sequence,
    markings: &[Marking],
) -> Result<Vec<Spot>, AllocError>
    ensures { IfOk result (λ spots. AreSpots sequence.now spots.items markings.now) }
{
    let mut spots = Vec::with_capacity(alloc, markings.len())?;
    for marking in markings {
        spots.push(spot_of(sequence, marking))?;
    }
    Ok(spots)
}

/// The spot of a mark operation.
fn spot_of(sequence: &Sequence, marking: &Marking) -> Spot
    ensures { IsSpot sequence.now result marking.now }
{
    Spot {
        from: start_spot(sequence, &marking.start),
        to: end_spot(sequence, &marking.end),
    }
}

/// The first chunk at whose beginning a mark operation with this start has begun.
fn start_spot(sequence: &Sequence, start: &Start) -> usize
    ensures { (i : ℕ) → IsBorder sequence.now i
        → nat_le result i ≡ begun_before sequence.now i start.now }
{
    match start {
        Start::OfText => 0,
        Start::From(anchor) => behind(sequence, anchor),
    }
}

/// The first chunk at whose beginning a mark operation with this end has ended.
fn end_spot(sequence: &Sequence, end: &End) -> usize
    ensures { (i : ℕ) → IsBorder sequence.now i
        → nat_le result i ≡ ended_before sequence.now i end.now }
{
    sequence.are_sized();
    match end {
        End::OfText => NEVER,
        End::To(anchor) => behind(sequence, anchor),
    }
}

/// The first chunk that has the character of an anchor before it.
fn behind(sequence: &Sequence, anchor: &Anchor) -> usize
    ensures { (i : ℕ) → IsBorder sequence.now i
        → nat_le result i ≡ has_cell (cells_of (take i sequence.now)) (id_of anchor.now) }
{
    sequence.are_sized();
    match sequence.chunk_of(anchor_id(anchor)) {
        Some(chunk) => chunk + 1,
        None => NEVER,
    }
}

/// The character of an anchor.
fn anchor_id(anchor: &Anchor) -> OpId
    ensures { result ≡ id_of anchor.now }
{
    match anchor {
        Anchor::Before(id) => *id,
        Anchor::After(id) => *id,
    }
}
