//! Sequences of characters, as rows have them change.
use crate::test_acts::{judged, named};
use crate::test_names::{replica, text_of};
use char_sequence::{EndsAfter, Sequence, SequenceError};
use op_ids::OpId;
use op_model::Ticks;
use std::alloc::Global;
use std::io::Eprint;
use std::slice;
use std::test::Fail;

/// An id: its counter, and the last byte of its replica.
pub(crate) type Id = (u64, u8);

/// A call that changes a sequence.
#[derive(Clone, Copy)]
pub(crate) enum Call<'a> {
    /// A character goes in behind its origin.
    Insert(Id, Option<Id>, char),
    /// Characters go in behind an origin.
    Run(Option<Id>, &'a [(Id, char)]),
    Remove(Id),
    Removes(&'a [Id]),
}

/// A call, or what a sequence has after the calls before it.
#[derive(Clone, Copy)]
pub(crate) enum Row<'a> {
    /// A call is done.
    Does(Call<'a>),
    /// A call is refused with this number.
    Refuses(u8, Call<'a>),
    /// The text that a reader sees.
    Text(&'a str),
    /// The place at which a character is found.
    Finds(Id, usize),
    /// The visible character at an index.
    Visible(usize, Option<Id>),
    /// The tombstones behind so many visible characters.
    RunAfter(usize, &'a [Id]),
    /// The cell at a place of the first chunk: whose it is, and whether that is a tombstone.
    Cell(usize, Id, bool),
    /// The value of the cell at a place of the first chunk.
    Value(usize, Option<char>),
    /// What `last_ended` answers behind so many visible characters, of which one is the last, if
    /// one mark operation ends just after a character.
    LastEnded(usize, Option<Id>, Id, Option<Id>),
    /// The same without mark operations.
    LastEndedByNone(usize, Option<Id>, Option<Id>),
}

/// What a case shows, and its rows.
pub(crate) type Case<'a> = (&'static str, &'a [Row<'a>]);

/// No mark operations.
#[derive(Clone, Copy)]
struct NoMarks;

impl EndsAfter for NoMarks {
    ghost use Rattle.std.specs.Prelude.{false};

    ghost ends_after = { λ _ _. false };

    fn ends_after(&self, _id: OpId) -> bool {
        false
    }

    fn ended(&self) -> &[OpId] {
        &[]
    }
}

/// A mark operation that ends just after this character.
#[derive(Clone, Copy)]
struct EndsAfterOne(OpId);

impl EndsAfter for EndsAfterOne {
    ghost use Rattle.op_ids.specs.Id.{is_same};

    ghost ends_after = { λ ends id. is_same ends.0 id };

    fn ends_after(&self, id: OpId) -> bool {
        self.0.is_same(id)
    }

    fn ended(&self) -> &[OpId] {
        slice::from_ref(&self.0)
    }
}

pub(crate) fn id_of(id: Id) -> Result<OpId, Fail> {
    Ok(OpId::try_new(id.0, replica(id.1)?).ok_or("no counter")?)
}

pub(crate) fn maybe_id(id: Option<Id>) -> Result<Option<OpId>, Fail> {
    match id {
        Some(id) => Ok(Some(id_of(id)?)),
        None => Ok(None),
    }
}

fn ids_of(alloc: Global, ids: &[Id]) -> Result<Vec<OpId>, Fail> {
    let mut found = Vec::new(alloc);
    for id in ids {
        found.push(id_of(*id)?)?;
    }
    Ok(found)
}

fn run_of(alloc: Global, run: &[(Id, char)]) -> Result<Vec<(OpId, char)>, Fail> {
    let mut found = Vec::new(alloc);
    for (id, value) in run {
        found.push((id_of(*id)?, *value))?;
    }
    Ok(found)
}

/// The number of a refusal, or 0.
pub(crate) fn refusal(answer: Result<(), SequenceError>) -> u8 {
    match answer {
        Ok(()) => 0,
        Err(error) => error.number(),
    }
}

/// The number with which a sequence refuses a call, or 0.
fn answer(sequence: &mut Sequence, call: Call<'_>) -> Result<u8, Fail> {
    let alloc = sequence.allocator();
    match call {
        Call::Insert(id, origin, value) => {
            let (id, origin) = (id_of(id)?, maybe_id(origin)?);
            Ok(refusal(sequence.apply_insert(id, origin, value)))
        }
        Call::Run(origin, run) => {
            let (origin, run) = (maybe_id(origin)?, run_of(alloc, run)?);
            Ok(refusal(sequence.apply_run(origin, &run)))
        }
        Call::Remove(id) => Ok(refusal(sequence.apply_remove(id_of(id)?))),
        Call::Removes(ids) => Ok(refusal(sequence.apply_removes(&ids_of(alloc, ids)?))),
    }
}

pub(crate) fn has_text(sequence: &Sequence, due: &str) -> Result<bool, Fail> {
    Ok(sequence.text()? == text_of(sequence.allocator(), due)?)
}

fn has_run_after(sequence: &Sequence, count: usize, due: &[Id]) -> Result<bool, Fail> {
    let due = ids_of(sequence.allocator(), due)?;
    Ok(sequence.run_after(count)?.as_slice() == due.as_slice())
}

fn has_cell(sequence: &Sequence, j: usize, id: Id, is_removed: bool) -> Result<bool, Fail> {
    let id = id_of(id)?;
    match sequence.cell(0, j, &mut Ticks::new()) {
        Some(cell) => Ok(cell.id.is_same(id) && cell.is_removed == is_removed),
        None => Ok(false),
    }
}

fn value(sequence: &Sequence, j: usize) -> Option<char> {
    match sequence.cell(0, j, &mut Ticks::new()) {
        Some(cell) => Some(cell.value),
        None => None,
    }
}

fn has_last_ended<M: EndsAfter>(
    sequence: &Sequence,
    count: usize,
    before: Option<Id>,
    marks: &M,
    due: Option<Id>,
) -> Result<bool, Fail> {
    Ok(sequence.last_ended(count, maybe_id(before)?, marks) == maybe_id(due)?)
}

/// Whether a row holds: plays it, if it is a call.
fn holds(sequence: &mut Sequence, row: Row<'_>) -> Result<bool, Fail> {
    match row {
        Row::Does(call) => Ok(answer(sequence, call)? == 0),
        Row::Refuses(number, call) => Ok(answer(sequence, call)? == number),
        Row::Text(due) => has_text(sequence, due),
        Row::Finds(id, place) => Ok(sequence.find(id_of(id)?) == Some(place)),
        Row::Visible(index, due) => Ok(sequence.visible(index) == maybe_id(due)?),
        Row::RunAfter(count, due) => has_run_after(sequence, count, due),
        Row::Cell(j, id, is_removed) => has_cell(sequence, j, id, is_removed),
        Row::Value(j, due) => Ok(value(sequence, j) == due),
        Row::LastEnded(count, before, end, due) => {
            let marks = EndsAfterOne(id_of(end)?);
            has_last_ended(sequence, count, before, &marks, due)
        }
        Row::LastEndedByNone(count, before, due) => {
            has_last_ended(sequence, count, before, &NoMarks, due)
        }
    }
}

/// The sequence after these rows.
pub(crate) fn played(
    rt: &(impl Eprint + AllocGlobal),
    rows: &[Row<'_>],
) -> Result<Box<Sequence>, Fail> {
    let mut sequence = Box::new(rt.alloc(), Sequence::new(rt.alloc()))?;
    for (number, row) in rows.iter().enumerate() {
        judged(rt, number, holds(&mut sequence, *row))?;
    }
    Ok(sequence)
}

/// Plays these rows on an empty sequence.
fn play(rt: &(impl Eprint + AllocGlobal), rows: &[Row<'_>]) -> Result<(), Fail> {
    let _ = played(rt, rows)?;
    Ok(())
}

/// Plays the rows of each case on an empty sequence.
pub(crate) fn plays(rt: &(impl Eprint + AllocGlobal), cases: &[Case<'_>]) -> Result<(), Fail> {
    for (name, rows) in cases {
        named(rt, name, play(rt, rows))?;
    }
    Ok(())
}
