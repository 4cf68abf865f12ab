//! The chunks of a document while its characters come, one behind the other.
ghost use Rattle.std.specs.Prelude.{◌≡◌, ◌++◌, ◌∷◌, [], IfOk, OnOk, OnErr};
ghost use Rattle.char_sequence.specs.Chunks.{cells_of};

use crate::cell::Cell;
use crate::chunk::{MAX_CHUNK, MIN_CHUNK};
use crate::chunks::Chunks;
use std::alloc::{AllocError, Global};
use std::marker::Model;

/// Cells of which each comes behind all others. The last ones have no chunk yet, so that each chunk
/// is made once, and the last one too has as many cells as it must have.
#[derive(Debug, Drop)]
pub struct Building {
    /// Chunks of 256 cells each.
    chunks: Chunks,
    /// The cells behind those in the chunks: at most 512, and at least 256 if there is a chunk.
    rest: Vec<Cell>,
}

impl Model for Building {
    ghost use Rattle.std.specs.Prelude.{List, ◌++◌};
    ghost use Rattle.char_sequence.specs.declared.cell.Cell.{Cell};

    ghost Value = { List Cell };

    ghost use Rattle.char_sequence.specs.Building.{IsBuilding};
    ghost use Rattle.char_sequence.specs.Chunks.{cells_of};

    ghost view = { λ b. cells_of b.chunks ++ b.rest.items };

    ghost invariant = { λ b. IsBuilding b.chunks b.rest.items };
}

impl Building {
    /// No cells. Takes no memory.
    pub(crate) fn new(alloc: Global) -> Building
        ensures { result ≡ [] }
    {
        Building {
            chunks: Chunks::new(alloc),
            rest: Vec::new(alloc),
        }
    }

    /// Puts a cell behind all others. An error is out of memory (1), and leaves them as they were.
    /// Constant, but for each 256th cell, for which a chunk of 256 is made.
    pub(crate) fn push(&mut self, cell: Cell) -> Result<(), AllocError>
        ensures put { OnOk result (self.new ≡ self.old ++ cell ∷ []) }
        ensures err { OnErr result (self.new ≡ self.old) }
    {
        if self.rest.len() == MAX_CHUNK {
            self.chunks.append(&self.rest[..MIN_CHUNK])?;
            self.rest.drain(..MIN_CHUNK);
        }
        self.rest.push(cell)?;
        Ok(())
    }

    /// The chunks of all cells. An error is out of memory (1). A step for each cell that has no
    /// chunk yet.
    pub(crate) fn into_chunks(self) -> Result<Chunks, AllocError>
        ensures { IfOk result (λ chunks. cells_of chunks ≡ self) }
    {
        let Building { mut chunks, rest } = self;
        if chunks.len() == 0 {
            chunks.insert(0, 0, &rest)?;
        } else {
            chunks.append(&rest)?;
        }
        Ok(chunks)
    }
}
