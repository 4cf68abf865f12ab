//! A sequence takes inserts and removes.
ghost use Rattle.std.specs.Prelude.{◌≡◌, ◌↔◌, ℕ, List, Some, map, true, false};
ghost use Rattle.std.specs.Prelude.{IfOk, OnOk, OnErr, IsErrOf};
ghost use Rattle.std.specs.List.{list_all};
ghost use Rattle.char_sequence.specs.Cells.{cell_of_insert, has_cell, removed, removed_all};
ghost use Rattle.char_sequence.specs.Chunks.{cells_of};
ghost use Rattle.char_sequence.specs.Weave.{AreOnce};
ghost use Rattle.char_sequence.specs.Content.{is_there, Holds, TakesOperation, TakesRemoves, TakesRun};
ghost use Rattle.op_ids.specs.Id.{Id};
ghost use Rattle.op_model.specs.declared.op.Op.{Op};
ghost use Rattle.op_model.specs.declared.op.Body.TheVariants.{Insert, Remove};

use crate::cell::Cell;
use crate::chunks::Chunks;
use crate::error::SequenceError;
use crate::finding::{knows, knows_all, place};
use crate::hints::Hints;
use crate::landing::landing;
use crate::sequence::Sequence;
use op_ids::OpId;
use std::alloc::{AllocError, Global};

impl Sequence {
    /// Takes an insert of a character behind its origin, or at the beginning where there is none.
    /// `UnknownId` (60) where the origin isn't there, `Memory` (1) where a growth was refused;
    /// both leave the sequence as it was. A search of the origin, of all characters only where the
    /// hint is wrong; a step for each greater id that follows it; at most the characters of one
    /// chunk move, and where that is cut, the chunks behind it.
    pub fn apply_insert(
        &mut self,
        id: OpId,
        origin: Option<OpId>,
        value: char,
    ) -> Result<(), SequenceError>
        ensures taken { OnOk result (TakesOperation id (Insert origin value) self.old self.new) }
        ensures unknown { (ops : List Op) (doc : ℕ) → Holds self.old ops doc
            → (IsErrOf result SequenceError.UnknownId ↔ (is_there ops doc origin ≡ false)) }
        ensures err { OnErr result (self.new ≡ self.old) }
    {
        let cell = Cell {
            id,
            value,
            is_removed: false,
        };
        let at = match landing(&self.chunks, &self.hints, &origin, &cell) {
            Some(at) => at,
            None => return Err(SequenceError::UnknownId),
        };
        let more = self.chunks.insert(at.chunk, at.at, &[cell])?;
        self.hints.note(&self.chunks, at, 1, more);
        Ok(())
    }

    /// Takes a run of inserts, the first behind an origin, or at the beginning where there is
    /// none, each later one behind the one before; whole or not at all. `UnknownId` (60) where the
    /// origin isn't there, `Memory` (1) where a growth was refused; both leave the sequence as it
    /// was. Costs what one insert does, and a step or two for each character of the run.
    pub fn apply_run(
        &mut self,
        origin: Option<OpId>,
        run: &[(OpId, char)],
    ) -> Result<(), SequenceError>
        ensures taken { OnOk result (TakesRun origin run.now self.old self.new) }
        ensures unknown { (ops : List Op) (doc : ℕ) → Holds self.old ops doc
            → (IsErrOf result SequenceError.UnknownId ↔ (is_there ops doc origin ≡ false)) }
        ensures err { OnErr result (self.new ≡ self.old) }
    {
        let first = match run.first() {
            Some(first) => cell_of(first),
            None => {
                if !knows(&self.chunks, &self.hints, &origin) {
                    return Err(SequenceError::UnknownId);
                }
                return Ok(());
            }
        };
        let at = match landing(&self.chunks, &self.hints, &origin, &first) {
            Some(at) => at,
            None => return Err(SequenceError::UnknownId),
        };
        let cells = cells(self.chunks.allocator(), run)?;
        let more = self.chunks.insert(at.chunk, at.at, &cells)?;
        self.hints.note(&self.chunks, at, run.len(), more);
        Ok(())
    }

    /// Takes a remove of a character, which stays as a tombstone. `UnknownId` (60) where it isn't
    /// there, which leaves the sequence as it was. Takes no memory. A search of the character, of
    /// all only where the hint is wrong.
    pub fn apply_remove(&mut self, id: OpId) -> Result<(), SequenceError>
        ensures taken { OnOk result ((by : Id) → TakesOperation by (Remove id) self.old self.new) }
        ensures unknown { (ops : List Op) (doc : ℕ) → Holds self.old ops doc
            → (IsErrOf result SequenceError.UnknownId ↔ (is_there ops doc (Some id) ≡ false)) }
        ensures memory { IsErrOf result SequenceError.Memory → ⊥ }
        ensures err { OnErr result (self.new ≡ self.old) }
    {
        match place(&self.chunks, &self.hints, &id) {
            None => Err(SequenceError::UnknownId),
            Some(at) => {
                self.chunks.remove(at.chunk, at.at);
                Ok(())
            }
        }
    }

    /// Takes removes of characters, which stay as tombstones; whole or not at all. `UnknownId` (60)
    /// where one of them isn't there, which leaves the sequence as it was. Takes no memory. Two
    /// searches for each.
    pub fn apply_removes(&mut self, ids: &[OpId]) -> Result<(), SequenceError>
        ensures taken { OnOk result (TakesRemoves ids.now self.old self.new) }
        ensures unknown { (ops : List Op) (doc : ℕ) → Holds self.old ops doc
            → (IsErrOf result SequenceError.UnknownId
            ↔ (list_all (λ id. is_there ops doc (Some id)) ids.now ≡ false)) }
        ensures memory { IsErrOf result SequenceError.Memory → ⊥ }
        ensures err { OnErr result (self.new ≡ self.old) }
    {
        if !knows_all(&self.chunks, &self.hints, ids) {
            return Err(SequenceError::UnknownId);
        }
        remove_all(&mut self.chunks, &self.hints, ids);
        Ok(())
    }
}

/// The cell of an insert.
fn cell_of(insert: &(OpId, char)) -> Cell
    ensures { result ≡ cell_of_insert insert.now }
{
    Cell {
        id: insert.0,
        value: insert.1,
        is_removed: false,
    }
}

/// The cells of inserts. An error is out of memory (1).
fn cells(alloc: Global, run: &[(OpId, char)]) -> Result<Vec<Cell>, AllocError>
    ensures { IfOk result (λ cells. cells.items ≡ map cell_of_insert run.now) }
{
    run.iter().map(|insert| cell_of(insert)).collect(alloc)
}

/// Makes characters that are there tombstones.
fn remove_all(chunks: &mut Chunks, hints: &Hints, ids: &[OpId])
    ensures { list_all (λ id. has_cell (cells_of chunks.old) id) ids.now ≡ true
        → AreOnce (cells_of chunks.old)
        → cells_of chunks.new ≡ removed_all ids.now (cells_of chunks.old) }
{
    for id in ids {
        remove_one(chunks, hints, id);
    }
}

/// Makes a character that is there a tombstone.
fn remove_one(chunks: &mut Chunks, hints: &Hints, id: &OpId)
    ensures { has_cell (cells_of chunks.old) id.now ≡ true
        → AreOnce (cells_of chunks.old)
        → cells_of chunks.new ≡ removed id.now (cells_of chunks.old) }
{
    let at = match place(chunks, hints, id) {
        Some(at) => at,
        None => return,
    };
    chunks.remove(at.chunk, at.at);
}
