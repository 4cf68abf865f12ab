//! How a sequence keeps its characters in chunks.
use crate::test_acts::{judged, named};
use crate::test_names::id;
use char_sequence::{ChunkSize, Sequence};
use op_ids::OpId;
use op_model::Ticks;
use std::alloc::Global;
use std::io::Eprint;
use std::test::Fail;

/// What goes into a sequence, by counters from one to below another one; or what it has.
#[derive(Clone, Copy)]
enum Row<'a> {
    /// The characters are typed, each behind the one before it.
    Behind(u64, u64),
    /// The characters are typed, each before all others.
    Before(u64, u64),
    /// The characters go in at once, behind another one.
    Run(Option<u64>, u64, u64),
    Remove(u64),
    /// There are so many chunks, each with from 256 to 512 characters.
    Sized(usize),
    /// The size of a chunk.
    Chunk(usize, Option<ChunkSize>),
    /// The cell at a place of a chunk is there, and is a tombstone.
    Removed(usize, usize),
    /// The counters of all characters, in order: rows of them, each with its first and its last.
    Counters(&'a [(u64, u64)]),
}

/// Characters with these counters, in order.
fn run(alloc: Global, from: u64, to: u64) -> Result<Vec<(OpId, char)>, Fail> {
    let mut run = Vec::new(alloc);
    for counter in from..to {
        run.push((id(counter)?, 'a'))?;
    }
    Ok(run)
}

fn type_behind(sequence: &mut Sequence, from: u64, to: u64) -> Result<(), Fail> {
    let mut last = None;
    for counter in from..to {
        let id = id(counter)?;
        sequence.apply_insert(id, last, 'a')?;
        last = Some(id);
    }
    Ok(())
}

fn type_before(sequence: &mut Sequence, from: u64, to: u64) -> Result<(), Fail> {
    for counter in from..to {
        sequence.apply_insert(id(counter)?, None, 'a')?;
    }
    Ok(())
}

fn put(sequence: &mut Sequence, origin: Option<u64>, from: u64, to: u64) -> Result<(), Fail> {
    let origin = match origin {
        Some(counter) => Some(id(counter)?),
        None => None,
    };
    let run = run(sequence.allocator(), from, to)?;
    Ok(sequence.apply_run(origin, &run)?)
}

/// The counters of all characters, in order.
fn counters(sequence: &Sequence) -> Result<Vec<u64>, Fail> {
    let ticks = &mut Ticks::new();
    let mut found = Vec::new(sequence.allocator());
    for i in 0..50 {
        for j in 0..512 {
            if let Some(cell) = sequence.cell(i, j, ticks) {
                found.push(cell.id.counter())?;
            }
        }
    }
    Ok(found)
}

/// The counters of these rows of them, in order.
fn listed(alloc: Global, rows: &[(u64, u64)]) -> Result<Vec<u64>, Fail> {
    let mut counters = Vec::new(alloc);
    for (first, last) in rows {
        for step in 0..=first.abs_diff(*last) {
            let counter = if first < last {
                first.wrapping_add(step)
            } else {
                first.wrapping_sub(step)
            };
            counters.push(counter)?;
        }
    }
    Ok(counters)
}

fn is_removed(sequence: &Sequence, i: usize, j: usize) -> bool {
    match sequence.cell(i, j, &mut Ticks::new()) {
        Some(cell) => cell.is_removed,
        None => false,
    }
}

fn are_sized(sequence: &Sequence, count: usize) -> bool {
    let ticks = &mut Ticks::new();
    for i in 0..count {
        let fits = match sequence.chunk(i, ticks) {
            Some(size) => 256 <= size.cells && size.cells <= 512,
            None => false,
        };
        if !fits {
            return false;
        }
    }
    sequence.chunk(count, ticks).is_none()
}

/// Whether a row holds: plays it, if it changes the sequence.
fn holds(sequence: &mut Sequence, row: Row<'_>) -> Result<bool, Fail> {
    match row {
        Row::Behind(from, to) => type_behind(sequence, from, to)?,
        Row::Before(from, to) => type_before(sequence, from, to)?,
        Row::Run(origin, from, to) => put(sequence, origin, from, to)?,
        Row::Remove(counter) => sequence.apply_remove(id(counter)?)?,
        Row::Sized(count) => return Ok(are_sized(sequence, count)),
        Row::Chunk(i, due) => return Ok(sequence.chunk(i, &mut Ticks::new()) == due),
        Row::Removed(i, j) => return Ok(is_removed(sequence, i, j)),
        Row::Counters(due) => {
            let due = listed(sequence.allocator(), due)?;
            return Ok(counters(sequence)? == due);
        }
    }
    Ok(true)
}

/// Plays these rows on an empty sequence.
fn play(rt: &(impl Eprint + AllocGlobal), rows: &[Row<'_>]) -> Result<(), Fail> {
    let mut sequence = Box::new(rt.alloc(), Sequence::new(rt.alloc()))?;
    for (number, row) in rows.iter().enumerate() {
        judged(rt, number, holds(&mut sequence, *row))?;
    }
    Ok(())
}

/// What a case shows, and its rows.
type Case<'a> = (&'static str, &'a [Row<'a>]);

/// Plays the rows of each case on an empty sequence.
fn plays(rt: &(impl Eprint + AllocGlobal), cases: &[Case<'_>]) -> Result<(), Fail> {
    for (name, rows) in cases {
        named(rt, name, play(rt, rows))?;
    }
    Ok(())
}

const ORDERED: [Row<'static>; 7] = [
    Row::Behind(1, 1501),
    Row::Sized(5),
    Row::Before(1501, 3001),
    Row::Sized(10),
    // 471 cells in the first chunk, 257 in each of the next five: so the run cuts the sixth
    // one, and makes two more.
    Row::Run(Some(99), 3001, 3701),
    Row::Sized(12),
    Row::Counters(&[(3000, 1501), (1, 99), (3001, 3700), (100, 1500)]),
];

const COUNTED: [Row<'static>; 9] = [
    Row::Behind(1, 2),
    Row::Run(Some(1), 2, 5),
    Row::Remove(3),
    Row::Remove(3),
    Row::Run(None, 0, 0),
    Row::Chunk(0, Some(ChunkSize { cells: 4, shown: 3 })),
    Row::Chunk(1, None),
    Row::Removed(0, 2),
    Row::Counters(&[(1, 4)]),
];

static CASES: [Case<'static>; 2] = [
    ("cells keep their order in chunks of 256 to 512", &ORDERED),
    ("a chunk counts what a reader sees", &COUNTED),
];

#[test]
fn chunks_keep_their_cells(rt: HostRuntime) -> Result<(), Fail> {
    plays(&rt, &CASES)
}
