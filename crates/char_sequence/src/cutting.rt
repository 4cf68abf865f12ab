//! Cells that are cut into chunks.
ghost use Rattle.std.specs.Prelude.{◌≡◌, ◌≤◌, ◌+◌, ◌++◌, [], length, take, drop};
ghost use Rattle.std.specs.Prelude.{IfOk, OnOk, OnErr};
ghost use Rattle.std.proofs.Common.{get_or};
ghost use Rattle.char_sequence.specs.Chunks.{cells_of, AreChunks, AreSized};

use crate::cell::Cell;
use crate::chunk::{Chunk, MAX_CHUNK, MIN_CHUNK};
use std::alloc::{AllocError, Global};

/// The cells of the i-th chunk, with a run of cells before its j-th one; the run alone where there
/// is no i-th. An error is out of memory (1).
pub(crate) fn joined(
    alloc: Global,
    chunks: &[Chunk],
    i: usize,
    j: usize,
    run: &[Cell],
) -> Result<Vec<Cell>, AllocError>
    requires { j ≤ length (get_or chunks.now i []) }
    ensures { IfOk result (λ all. all.items
        ≡ take j (get_or chunks.now i []) ++ (run.now ++ drop j (get_or chunks.now i []))) }
{
    match chunks.get(i) {
        None => Vec::from_slice(alloc, run),
        Some(chunk) => {
            let mut all = Vec::with_capacity(alloc, chunk.len().saturating_add(run.len()))?;
            chunk.put_range(0, j, &mut all)?;
            all.extend_from_slice(run)?;
            chunk.put_range(j, chunk.len(), &mut all)?;
            Ok(all)
        }
    }
}

/// Chunks of these cells: one, if they are at most 512; else of 256 each, but the last one, which
/// has from 257 to 512. An error is out of memory (1).
pub(crate) fn cut(alloc: Global, cells: &[Cell]) -> Result<Vec<Chunk>, AllocError>
    ensures cells { IfOk result (λ chunks. cells_of chunks.items ≡ cells.now) }
    ensures chunks { IfOk result (λ chunks. AreChunks chunks.items) }
    ensures halved { IfOk result (λ chunks. MIN_CHUNK ≤ length cells.now
        → AreSized MIN_CHUNK chunks.items) }
{
    let mut chunks = Vec::new(alloc);
    let mut from = 0;
    while cells.len() - from > MAX_CHUNK {
        chunks.push(Chunk::of(alloc, &cells[from..from + MIN_CHUNK])?)?;
        from += MIN_CHUNK;
    }
    if from == cells.len() {
        return Ok(chunks);
    }
    chunks.push(Chunk::of(alloc, &cells[from..])?)?;
    Ok(chunks)
}

/// Puts these chunks in place of the i-th one, or behind all where there is no i-th. An error is
/// out of memory (1), and leaves all as it was. The chunks behind move.
pub(crate) fn replace(chunks: &mut Vec<Chunk>, i: usize, by: Vec<Chunk>) -> Result<(), AllocError>
    requires { i ≤ length chunks.old.items }
    ensures put { OnOk result (chunks.new.items
        ≡ take i chunks.old.items ++ (by.items ++ drop (i + 1) chunks.old.items)) }
    ensures err { OnErr result (chunks.new.items ≡ chunks.old.items) }
{
    let end = if i < chunks.len() { i + 1 } else { i };
    chunks.splice(i..end, by)?;
    Ok(())
}
