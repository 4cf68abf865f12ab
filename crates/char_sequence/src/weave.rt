//! The characters of one document while it is opened.
ghost use Rattle.std.specs.Prelude.{◌≡◌, ◌↔◌, ℕ, ◌<◌, List, [], Some, length, vec_len, vec_capacity};
ghost use Rattle.std.specs.Prelude.{MatchOption, IfOk, OnOk, OnErr, IsErrOf, true, false};
ghost use Rattle.op_ids.specs.Id.{Id, is_same};
ghost use Rattle.op_model.specs.declared.op.Op.{Op};
ghost use Rattle.op_model.specs.declared.op.Body.TheVariants.{Insert, Remove};
ghost use Rattle.char_sequence.specs.declared.cell.Cell.{Cell};
ghost use Rattle.char_sequence.specs.Cells.{has_cell, is_known};
ghost use Rattle.char_sequence.specs.Chunks.{cells_of};
ghost use Rattle.char_sequence.specs.Content.{is_there, TakesCell};
ghost use Rattle.char_sequence.specs.Links.{cell_at_place};
ghost use Rattle.char_sequence.specs.Weave.{Starts, Weaves};
ghost use Rattle.char_sequence.specs.Woven.{IsWovenOf};

use crate::building::Building;
use crate::cell::Cell;
use crate::cell_list::CellList;
use crate::error::SequenceError;
use crate::hints::Hints;
use crate::links::{cell_at, next_of, past, tie};
use crate::search::place;
use crate::sequence::Sequence;
use crate::trail::{Trail, hinted, note};
use op_ids::{OpId, ReplicaId};
use std::alloc::{AllocError, Global};
use std::marker::Model;

/// The most characters of a document, so that a place is a number of 32 bits.
const MAX_CELLS: usize = 4_294_967_294;

/// The characters of one document while many operations are taken, one after another: where a
/// `Sequence` moves the characters of a chunk, this links an insert in. Each character keeps its
/// place in the order in which it came; 16 bytes a character, and 4 for the hint by which it is
/// found.
#[derive(Debug, Drop)]
pub struct Weave {
    /// The characters in the order in which they came.
    cells: CellList,
    /// By place, counted from 1, the place of the character behind it in the text, or 0 behind the
    /// last one. The entry at 0 is the first character's.
    next: Vec<u32>,
    trails: Vec<Trail>,
}

impl Model for Weave {
    ghost use Rattle.char_sequence.specs.Woven.{Woven};

    ghost Value = { Woven };

    ghost use Rattle.char_sequence.specs.Weave.{woven, IsWoven};

    ghost view = { λ w. woven w.cells w.next.items };

    ghost invariant = { λ w. IsWoven w.cells w.next.items };
}

impl Weave {
    /// The weave of an empty document. An error is out of memory (1).
    pub fn new(alloc: Global) -> Result<Weave, AllocError>
        ensures { IfOk result (λ w. w ≡ []) }
    {
        let mut next = Vec::new(alloc);
        next.push(0)?;
        Ok(Weave {
            cells: CellList::new(alloc),
            next,
            trails: Vec::new(alloc),
        })
    }

    /// Takes an insert of a character behind its origin, or at the beginning where there is none.
    /// `UnknownId` (60) where the origin isn't there, `Memory` (1) where a growth was refused; both
    /// leave the characters as they were. 2^32 - 2 characters are the limit of a weave, which
    /// answers `Memory` (1) too; a list of operations has at most 2^24. A binary search for the
    /// origin, of all characters only where the hint is wrong, and a step for each greater id that
    /// follows it.
    pub fn insert(
        &mut self,
        id: OpId,
        origin: Option<OpId>,
        value: char,
    ) -> Result<(), SequenceError>
        ensures taken { OnOk result (TakesCell id (Insert origin value) self.old self.new) }
        ensures unknown { (ops : List Op) (doc : ℕ) → IsWovenOf self.old ops doc
            → (IsErrOf result SequenceError.UnknownId ↔ (is_there ops doc origin ≡ false)) }
        ensures err { OnErr result (self.new ≡ self.old) }
    {
        let from = match start_of(&self.trails, &self.cells, &origin) {
            Some(from) => from,
            None => return Err(SequenceError::UnknownId),
        };
        let cell = Cell {
            id,
            value,
            is_removed: false,
        };
        let slot = make_room(&mut self.next, &mut self.trails, id.replica())?;
        let at = past(&self.cells, &self.next, from, &cell);
        let behind = next_of(&self.next, at);
        self.cells.push(cell)?;
        self.next.push_reserved(behind);
        tie(&mut self.next, at, slot);
        Ok(())
    }

    /// Takes a remove of a character, which stays as a tombstone. `UnknownId` (60) where it isn't
    /// there, which leaves the characters as they were. Takes no memory. A binary search; a search
    /// of all only where the hint is wrong.
    pub fn remove(&mut self, id: OpId) -> Result<(), SequenceError>
        ensures taken { OnOk result ((by : Id) → TakesCell by (Remove id) self.old self.new) }
        ensures unknown { (ops : List Op) (doc : ℕ) → IsWovenOf self.old ops doc
            → (IsErrOf result SequenceError.UnknownId ↔ (is_there ops doc (Some id) ≡ false)) }
        ensures memory { IsErrOf result SequenceError.Memory → ⊥ }
        ensures err { OnErr result (self.new ≡ self.old) }
    {
        let at = match place_of(&self.trails, &self.cells, &id) {
            Some(at) => at,
            None => return Err(SequenceError::UnknownId),
        };
        self.cells.remove(at - 1);
        Ok(())
    }

    /// Whether a character is there. Takes no memory. A binary search; a search of all only where
    /// the hint is wrong.
    pub fn has(&self, id: OpId) -> bool
        ensures { (ops : List Op) (doc : ℕ) → IsWovenOf self.now ops doc
            → result ≡ is_there ops doc (Some id) }
    {
        match place_of(&self.trails, &self.cells, &id) {
            Some(_) => true,
            None => false,
        }
    }

    /// The sequence of these characters. An error is out of memory (1). A step for each.
    pub fn sequence(&self, alloc: Global) -> Result<Sequence, AllocError>
        ensures { IfOk result (λ s. cells_of s ≡ self.now) }
    {
        let mut building = Building::new(alloc);
        let mut at = 0;
        for _ in 0..self.cells.len() {
            at = next_of(&self.next, at) as usize;
            match cell_at(&self.cells, at) {
                Some(cell) => building.push(cell)?,
                None => {}
            }
        }
        Ok(Sequence {
            chunks: building.into_chunks()?,
            hints: Hints::new(alloc),
        })
    }
}

/// The place where what hangs from an origin begins, or `None` where the origin isn't there.
fn start_of(trails: &[Trail], cells: &CellList, origin: &Option<OpId>) -> Option<usize>
    ensures { (next : List ℕ) (cs : List Cell) (w : Weaves cells.now next cs)
        → MatchOption result (is_known cs origin.now ≡ false)
        (λ from. (is_known cs origin.now ≡ true) × Starts w.order cs origin.now from) }
{
    match origin {
        None => Some(0),
        Some(id) => place_of(trails, cells, id),
    }
}

/// The place of the character of an id, counted from 1, or `None` where there is none. A binary
/// search; a search of all only where the hint is wrong.
fn place_of(trails: &[Trail], cells: &CellList, id: &OpId) -> Option<usize>
    ensures { MatchOption result (has_cell cells.now id.now ≡ false)
        (λ at. (c : Cell) × (cell_at_place cells.now at ≡ Some c)
        × (is_same c.id id.now ≡ true)) }
{
    let hint = hinted(trails, cells, id);
    if let Some(cell) = cell_at(cells, hint) {
        if cell.id.is_same(*id) {
            return Some(hint);
        }
    }
    place(cells, id)
}

/// Makes room for the link of a replica's character, and gives its place. An error is out of memory
/// (1), or the limit of a weave; the links stay as they are.
fn make_room(
    next: &mut Vec<u32>,
    trails: &mut Vec<Trail>,
    replica: ReplicaId,
) -> Result<u32, AllocError>
    ensures next { next.new.items ≡ next.old.items }
    ensures room { OnOk result (vec_len next.new < vec_capacity next.new) }
    ensures slot { IfOk result (λ slot. slot ≡ length next.old.items) }
{
    let slot = next.len();
    if slot > MAX_CELLS {
        return Err(AllocError);
    }
    next.reserve(1)?;
    let alloc = *next.allocator();
    note(trails, alloc, replica, slot as u32)?;
    Ok(slot as u32)
}
