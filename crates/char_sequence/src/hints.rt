//! Where a character should be, by its id.
use crate::chunks::Chunks;
use crate::place::Place;
use crate::track::{Track, copied, gather, hinted, note, sort};
use op_ids::OpId;
use op_model::Ticks;
use std::alloc::{AllocError, Global};

/// In which chunk a character should be. No contract knows of it: whoever takes a hint checks it,
/// and a wrong or missing one costs time alone. A chunk has a serial number, which it keeps while
/// others come between; the hint of a character is the serial number of its chunk.
#[derive(Debug, Drop)]
pub struct Hints {
    tracks: Vec<Track>,
    /// The serial numbers of the chunks, in the order of the text.
    serials: Vec<u32>,
    /// By serial number, how many chunks stand before its chunk.
    positions: Vec<u32>,
    /// Where the character is that was put in last.
    last: Place,
}

impl Hints {
    /// No hints. Constant.
    pub(crate) fn new(alloc: Global) -> Hints {
        Hints {
            tracks: Vec::new(alloc),
            serials: Vec::new(alloc),
            positions: Vec::new(alloc),
            last: Place { chunk: 0, at: 0 },
        }
    }

    /// The same hints again. An error is out of memory (1). All is copied as memory.
    pub(crate) fn copy(&self) -> Result<Hints, AllocError> {
        let alloc = *self.serials.allocator();
        Ok(Hints {
            tracks: copied(&self.tracks)?,
            serials: Vec::from_slice(alloc, &self.serials)?,
            positions: Vec::from_slice(alloc, &self.positions)?,
            last: self.last,
        })
    }

    /// The chunk in which a character should be. A binary search among the characters of its
    /// replica at the most.
    pub(crate) fn chunk_of(&self, id: &OpId) -> usize {
        match hinted(&self.tracks, id) {
            Some(serial) => position(&self.positions, serial),
            None => 0,
        }
    }

    /// The place of the character that was put in last.
    pub(crate) fn last(&self) -> Place {
        self.last
    }

    /// Notes that `count` characters were put in at a place, and `more` new chunks behind its own.
    /// Where memory is refused, hints are missing. A step for each character that was put in or
    /// moved to another chunk; where chunks came, for each chunk behind them too.
    pub(crate) fn note(&mut self, chunks: &Chunks, place: Place, count: usize, more: usize) {
        self.last = nth_from(chunks, &place, count.saturating_sub(1), more);
        match self.noted(chunks, &place, count, more) {
            Ok(()) => {}
            Err(_) => {}
        }
    }

    /// Notes all characters of these chunks, where none are noted. Where memory is refused, hints
    /// are missing. A step for each character, and a sort of those of each replica by counter.
    pub(crate) fn note_all(&mut self, chunks: &Chunks) {
        match self.gathered(chunks) {
            Ok(()) => {}
            Err(_) => {}
        }
        sort(&mut self.tracks);
    }

    fn gathered(&mut self, chunks: &Chunks) -> Result<(), AllocError> {
        chunks.are_sized();
        let mut i = 0;
        let ticks = &mut Ticks::new();
        while let Some(size) = chunks.chunk(i, ticks) {
            let serial = low(i);
            self.serials.push(serial)?;
            self.positions.push(serial)?;
            for j in 0..size.cells {
                if let Some(cell) = chunks.cell(i, j, ticks) {
                    gather(&mut self.tracks, cell.id, serial)?;
                }
            }
            i += 1;
        }
        Ok(())
    }

    fn noted(
        &mut self,
        chunks: &Chunks,
        place: &Place,
        count: usize,
        more: usize,
    ) -> Result<(), AllocError> {
        self.count_chunks(place.chunk.saturating_add(1), more)?;
        let end = place.at.saturating_add(count);
        self.note_cells(chunks, place.chunk, place.at, end)?;
        for i in 0..more {
            let chunk = place.chunk.saturating_add(i).saturating_add(1);
            self.note_cells(chunks, chunk, 0, MOST)?;
        }
        Ok(())
    }

    /// Gives serial numbers to `more` new chunks at a position, and renews the positions of those
    /// behind.
    fn count_chunks(&mut self, at: usize, more: usize) -> Result<(), AllocError> {
        if more == 0 {
            return Ok(());
        }
        for _ in 0..more {
            let at = at.min(self.serials.len());
            self.serials.insert(at, low(self.positions.len()))?;
            self.positions.push(0)?;
        }
        renumber(&self.serials, &mut self.positions, at.saturating_sub(1));
        Ok(())
    }

    /// Notes the cells of a chunk from one on, and before another one.
    fn note_cells(
        &mut self,
        chunks: &Chunks,
        chunk: usize,
        from: usize,
        end: usize,
    ) -> Result<(), AllocError> {
        let serial = match self.serials.get(chunk) {
            Some(serial) => *serial,
            None => return Ok(()),
        };
        let ticks = &mut Ticks::new();
        for j in from..end {
            match chunks.cell(chunk, j, ticks) {
                Some(cell) => note(&mut self.tracks, cell.id, serial)?,
                None => return Ok(()),
            }
        }
        Ok(())
    }
}

/// More than the cells of a chunk.
const MOST: usize = 1024;

/// The place of the n-th cell from a place on, in its chunk or one of the next `more` chunks.
fn nth_from(chunks: &Chunks, place: &Place, n: usize, more: usize) -> Place {
    let ticks = &mut Ticks::new();
    let mut chunk = place.chunk;
    let mut at = place.at.saturating_add(n);
    for _ in 0..more {
        match chunks.chunk(chunk, ticks) {
            Some(size) if size.cells <= at => {
                at -= size.cells;
                chunk = chunk.saturating_add(1);
            }
            _ => {}
        }
    }
    Place { chunk, at }
}

/// The position of the chunk with a serial number, or 0.
fn position(positions: &[u32], serial: u32) -> usize {
    match positions.get(serial as usize) {
        Some(position) => *position as usize,
        None => 0,
    }
}

/// Renews the positions of the chunks from one on.
fn renumber(serials: &[u32], positions: &mut [u32], from: usize) {
    for (i, serial) in serials.iter().enumerate().skip(from) {
        set_position(positions, *serial, low(i));
    }
}

fn set_position(positions: &mut [u32], serial: u32, position: u32) {
    if let Some(old) = positions.get_mut(serial as usize) {
        *old = position;
    }
}

/// The low 32 bits of a number.
fn low(n: usize) -> u32 {
    (n % 4_294_967_296) as u32
}
