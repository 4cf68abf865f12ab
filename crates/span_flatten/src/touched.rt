//! Which chunks have a character that came or went.
ghost use Rattle.std.specs.Prelude.{◌≡◌, ℕ, [], true, IfOk, OnOk};
ghost use Rattle.std.proofs.Common.{get_or};
ghost use Rattle.std.specs.BTreeSet.{contains, keys};
ghost use Rattle.char_sequence.specs.Cells.{has_cell};
ghost use Rattle.char_sequence.specs.Chunks.{cells_of};
ghost use Rattle.char_sequence.specs.Weave.{AreOnce};
ghost use Rattle.span_flatten.specs.Ranking.{id_order};
ghost use Rattle.span_flatten.specs.Since.{has_inserted, has_removed};
ghost use Rattle.span_flatten.specs.Spots.{has_chunk, NotesChunks};

use crate::since::Since;
use char_sequence::Sequence;
use op_ids::OpId;
use std::alloc::{AllocError, Global};
use std::collections::BTreeSet;

/// Chunks of a sequence, each by how many stand before it.
#[derive(Drop)]
pub struct Touched {
    pub chunks: BTreeSet<usize>,
}

impl Touched {
    /// Those with a character that came or went since. An error is out of memory (1). A search for
    /// each of these characters.
    pub(crate) fn new(
        alloc: Global,
        sequence: &Sequence,
        since: &Since,
    ) -> Result<Touched, AllocError>
        ensures came { IfOk result (λ t. NotesChunks sequence.now t (has_inserted since.now)) }
        ensures went { IfOk result (λ t. NotesChunks sequence.now t (has_removed since.now)) }
    {
        let mut touched = Touched {
            chunks: BTreeSet::new(alloc),
        };
        touched.note_all(alloc, sequence, &since.inserted)?;
        touched.note_all(alloc, sequence, &since.removed)?;
        Ok(touched)
    }

    /// Whether a chunk is one of them.
    pub(crate) fn has(&self, chunk: usize) -> bool
        ensures { result ≡ has_chunk self.now chunk }
    {
        self.chunks.contains(&chunk)
    }

    /// Notes the chunks of these characters.
    fn note_all(
        &mut self,
        alloc: Global,
        sequence: &Sequence,
        ids: &BTreeSet<OpId>,
    ) -> Result<(), AllocError>
        ensures noted { OnOk result
            (NotesChunks sequence.now self.new (contains id_order ids.now)) }
        ensures kept { OnOk result ((i : ℕ) → has_chunk self.old i ≡ true
            → has_chunk self.new i ≡ true) }
    {
        let ids = listed(alloc, ids)?;
        for id in &ids {
            self.note(sequence, *id)?;
        }
        Ok(())
    }

    /// Notes the chunk of a character, if it is there.
    fn note(&mut self, sequence: &Sequence, id: OpId) -> Result<(), AllocError>
        ensures noted { OnOk result (AreOnce (cells_of sequence.now) → (i : ℕ)
            → has_cell (get_or sequence.now i []) id ≡ true → has_chunk self.new i ≡ true) }
        ensures kept { OnOk result ((i : ℕ) → has_chunk self.old i ≡ true
            → has_chunk self.new i ≡ true) }
    {
        if let Some(chunk) = sequence.chunk_of(id) {
            self.chunks.insert(chunk)?;
        }
        Ok(())
    }
}

/// These characters, in order. An error is out of memory (1).
fn listed(alloc: Global, ids: &BTreeSet<OpId>) -> Result<Vec<OpId>, AllocError>
    ensures { IfOk result (λ found. found.items ≡ keys ids.now) }
{
    ids.iter().copied().collect::<Vec<OpId>>(alloc)
}
