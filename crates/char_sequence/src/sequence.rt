//! The characters of one document.
ghost use Rattle.std.specs.Prelude.{◌≡◌, ◌+◌, ◌*◌, ◌≤◌, ◌<◌, ◌/◌, ◌^◌, ℕ, List, Some, [], map, filter, length, take, drop, false, true};
ghost use Rattle.std.specs.Prelude.{is_some, nat_le, MatchOption, IfOk, IfSome};
ghost use Rattle.std.proofs.Common.{get_or};
ghost use Rattle.char_sequence.specs.Cells.{has_cell};
ghost use Rattle.char_sequence.specs.Chunks.{cells_of, cell_at, size_at, AreChunks};
ghost use Rattle.char_sequence.specs.Content.{empty, is_there, Holds};
ghost use Rattle.char_sequence.specs.Gaps.{IsGap};
ghost use Rattle.op_model.specs.Lasting.{at_of};
ghost use Rattle.op_model.specs.Places.{index_of};
ghost use Rattle.op_model.specs.Walk.{walk};
ghost use Rattle.op_model.specs.declared.op.Op.{Op};
ghost use Rattle.op_model.specs.Text.{visible as seen, text as text_of};
ghost use Rattle.op_model.specs.Made.{id_at, id_before, last_or, tombstones_at};
ghost use Rattle.char_sequence.specs.declared.chunk.TheConstants.{MAX_CHUNK, MIN_CHUNK};
ghost use Rattle.char_sequence.specs.declared.groups.TheConstants.{GROUP};

use crate::cell::Cell;
use crate::chunk_size::ChunkSize;
use crate::chunks::Chunks;
use crate::ended::last_ended;
use crate::ends_after::EndsAfter;
use crate::finding::{index, place};
use crate::gap::Gap;
use crate::hints::Hints;
use crate::lasting::beside;
use crate::reading::{tombstones, values};
use crate::shown::{behind, gap, shown, shown_from};
use op_ids::OpId;
use op_model::{Lasting, Text, Ticks};
use std::alloc::{AllocError, Global};
use std::marker::Model;

/// The characters of one document in the order of its text, tombstones too. Contracts see its
/// content: for each character its id, its value, and whether it was removed.
#[derive(Debug, Drop)]
pub struct Sequence {
    pub(crate) chunks: Chunks,
    pub(crate) hints: Hints,
}

impl Model for Sequence {
    ghost use Rattle.char_sequence.specs.Chunks.{ChunkCells};

    ghost Value = { ChunkCells };

    ghost view = { λ s. s.chunks };
}

impl Sequence {
    /// The sequence of an empty document.
    pub fn new(alloc: Global) -> Sequence
        ensures { result ≡ empty }
    {
        Sequence {
            chunks: Chunks::new(alloc),
            hints: Hints::new(alloc),
        }
    }

    /// The same characters again, each found as fast. An error is out of memory (1). A step for
    /// each chunk; the characters and their hints are copied as memory, some twenty bytes for each.
    pub fn copy(&self) -> Result<Sequence, AllocError>
        ensures { IfOk result (λ copied. copied ≡ self.now) }
    {
        Ok(Sequence {
            chunks: self.chunks.copy()?,
            hints: self.hints.copy()?,
        })
    }

    /// The allocator that it keeps.
    pub fn allocator(&self) -> Global {
        self.chunks.allocator()
    }

    /// The size of a chunk, with `i` before it, or `None` past the last one. For `span_flatten`
    /// alone. One tick. Constant.
    pub fn chunk(&self, i: usize, ticks: &mut Ticks) -> Option<ChunkSize>
        ensures size { result ≡ size_at self.now i }
        ensures tick { ticks.new ≡ ticks.old + 1 }
    {
        self.chunks.chunk(i, ticks)
    }

    /// The character with `j` before it in its chunk, tombstones counted, or `None` past the last
    /// one. For `span_flatten` alone. One tick. Constant.
    pub fn cell(&self, i: usize, j: usize, ticks: &mut Ticks) -> Option<Cell>
        ensures cell { result ≡ cell_at self.now i j }
        ensures tick { ticks.new ≡ ticks.old + 1 }
    {
        self.chunks.cell(i, j, ticks)
    }

    /// What holds of its chunks: none is empty, none has over 512 characters, and where there are
    /// several, each has at least 256; and they are at most 2^54. It does nothing.
    pub fn are_sized(&self)
        ensures chunks { AreChunks self.now }
        ensures many { length self.now ≤ 2 ^ 54 }
    {
        self.chunks.are_sized();
    }

    /// Notes where all its characters are, so that each is found fast: for a sequence that was made
    /// at once. Contracts see nothing of it; where memory is refused, it stays slow. A step for
    /// each character, and a sort of those of each replica.
    pub fn note_all(&mut self)
        ensures { self.new ≡ self.old }
    {
        self.hints.note_all(&self.chunks);
    }

    /// How many characters stand before this one, tombstones counted, or `None` where it isn't
    /// there. Takes no memory. A step for each chunk, and for each character of one; a search of
    /// all only where the hint is wrong.
    pub fn find(&self, id: OpId) -> Option<usize>
        ensures { (ops : List Op) (doc : ℕ) → Holds self.now ops doc
            → MatchOption result (is_there ops doc (Some id) ≡ false)
            (λ i. (is_there ops doc (Some id) ≡ true) × (i ≡ index_of id (walk ops doc))) }
    {
        let found = place(&self.chunks, &self.hints, &id)?;
        Some(index(&self.chunks, &found))
    }

    /// How many chunks stand before that of this character, or `None` where it isn't there. For
    /// `span_flatten` alone. Takes no memory. Costs what `find` does, but no step for each chunk.
    pub fn chunk_of(&self, id: OpId) -> Option<usize>
        ensures { MatchOption result (has_cell (cells_of self.now) id ≡ false)
            (λ i. (i < length self.now) × (has_cell (get_or self.now i []) id ≡ true)) }
    {
        Some(place(&self.chunks, &self.hints, &id)?.chunk)
    }

    /// How many characters that a reader sees stand before a place that lasts, or `None` where the
    /// character that it stays with isn't there; a tombstone is there. Takes no memory. Constant at
    /// the start and at the end of the text, else costs what `at_in` does.
    pub fn at(&self, place: &Lasting) -> Option<usize>
        ensures { (ops : List Op) (doc : ℕ) → Holds self.now ops doc
            → result ≡ at_of ops doc place.now }
    {
        self.at_in(place, &mut Ticks::new())
    }

    /// The same. The character is looked for in the chunk of its hint, and in all only where the
    /// hint is wrong; no ticks are counted there. Then among n characters, tombstones counted, at
    /// most n/16384 + 576 counts and characters are read, since the counts of 64 chunks are kept as
    /// one: a tick for each.
    pub fn at_in(&self, place: &Lasting, ticks: &mut Ticks) -> Option<usize>
        ensures at { (ops : List Op) (doc : ℕ) → Holds self.now ops doc
            → result ≡ at_of ops doc place.now }
        ensures ticks { ticks.new ≤ ticks.old
            + (length (cells_of self.now) / (MIN_CHUNK * GROUP) + (GROUP + MAX_CHUNK)) }
    {
        match place {
            Lasting::StartOfText => Some(0),
            Lasting::Beside(anchor) => beside(&self.chunks, &self.hints, anchor, ticks),
            Lasting::EndOfText => Some(self.chunks.shown()),
        }
    }

    /// How many characters a reader sees. Takes no memory. Constant.
    pub fn shown(&self) -> usize
        ensures shown { (ops : List Op) (doc : ℕ) → Holds self.now ops doc
            → result ≡ length (seen ops doc) }
        ensures few { result ≤ 2 ^ 63 }
    {
        self.chunks.are_sized();
        self.chunks.shown()
    }

    /// Whether a reader sees at least `count` characters. Takes no memory. Constant.
    pub fn shows(&self, count: usize) -> bool
        ensures { (ops : List Op) (doc : ℕ) → Holds self.now ops doc
            → result ≡ nat_le count (length (seen ops doc)) }
    {
        count <= self.chunks.shown()
    }

    /// The k-th character that a reader sees, counted from 0, or `None` past the last. Takes no
    /// memory. Costs what `visible_in` does.
    pub fn visible(&self, k: usize) -> Option<OpId>
        ensures { (ops : List Op) (doc : ℕ) → Holds self.now ops doc
            → result ≡ id_at (seen ops doc) k }
    {
        self.visible_in(k, &mut Ticks::new())
    }

    /// The same. Among n characters, tombstones counted, it reads at most 1 + n/256 counts and the
    /// characters of one chunk: a tick for each. The counts are at most 66 + n/16384 too, since
    /// those of 64 chunks are kept as one.
    pub fn visible_in(&self, k: usize, ticks: &mut Ticks) -> Option<OpId>
        ensures found { (ops : List Op) (doc : ℕ) → Holds self.now ops doc
            → result ≡ id_at (seen ops doc) k }
        ensures ticks { ticks.new
            ≤ ticks.old + (1 + length (cells_of self.now) / MIN_CHUNK + MAX_CHUNK) }
        ensures fewer { ticks.new ≤ ticks.old
            + (length (cells_of self.now) / (MIN_CHUNK * GROUP) + (2 + GROUP + MAX_CHUNK)) }
        ensures rising { ticks.old ≤ ticks.new }
    {
        match shown(&self.chunks, k, ticks) {
            Some(seen) => Some(seen.id),
            None => None,
        }
    }

    /// The place behind the first `count` characters that a reader sees, or `None` where there are
    /// fewer. Takes no memory. Costs what `visible` does.
    pub fn gap(&self, count: usize) -> Option<Gap>
        ensures there { (ops : List Op) (doc : ℕ) → Holds self.now ops doc
            → is_some result ≡ nat_le count (length (seen ops doc)) }
        ensures gap { IfSome result (λ gap. (gap.count ≡ count) × IsGap self.now gap) }
    {
        gap(&self.chunks, count)
    }

    /// The ids of `count` characters that a reader sees, from the k-th on, counted from 0, or of as
    /// many as there are. An error is out of memory (1). Costs what `visible` does, and a step for
    /// each character up to the last one, but for chunks of tombstones alone one step each.
    pub fn visible_range(&self, k: usize, count: usize) -> Result<Vec<OpId>, AllocError>
        ensures range { IfOk result (λ ids. (ops : List Op) (doc : ℕ) → Holds self.now ops doc
            → ids.items ≡ map (λ c. c.id) (take count (drop k (seen ops doc)))) }
        ensures few { IfOk result (λ ids. length ids.items ≤ count) }
    {
        shown_from(&self.chunks, k, count)
    }

    /// The tombstones between the first `count` characters that a reader sees and the next one, in
    /// order. An error is out of memory (1). Costs what `visible` does, and a step for each.
    pub fn run_after(&self, count: usize) -> Result<Vec<OpId>, AllocError>
        ensures { IfOk result (λ run. (ops : List Op) (doc : ℕ) → Holds self.now ops doc
            → run.items ≡ map (λ c. c.id) (tombstones_at ops doc count)) }
    {
        tombstones(&self.chunks, &behind(&self.chunks, count))
    }

    /// Of the tombstones between the first `count` characters that a reader sees and the next one
    /// the last that a mark ends just after, or else the character before them, which is given.
    /// Takes no memory. Costs what `visible` does; and where some mark ends just after a character,
    /// a step for each chunk of these tombstones, and about the less of a question to the marks for
    /// each tombstone and a search for each character that a mark ends just after.
    pub fn last_ended<M: EndsAfter>(
        &self,
        count: usize,
        before: Option<OpId>,
        marks: &M,
    ) -> Option<OpId>
        ensures { (ops : List Op) (doc : ℕ) → Holds self.now ops doc
            → result ≡ last_or before
            (filter (λ c. M.ends_after marks.now c.id) (tombstones_at ops doc count)) }
    {
        let from = behind(&self.chunks, count);
        last_ended(&self.chunks, &self.hints, &from, before, marks)
    }

    /// The same of the tombstones at a place that was found before, and of the character before it.
    /// Costs the same, but nothing for the search of the place.
    pub fn last_ended_at<M: EndsAfter>(&self, gap: &Gap, marks: &M) -> Option<OpId>
        requires { IsGap self.now gap.now }
        ensures { (ops : List Op) (doc : ℕ) → Holds self.now ops doc
            → result ≡ last_or (id_before (seen ops doc) gap.now.count)
            (filter (λ c. M.ends_after marks.now c.id) (tombstones_at ops doc gap.now.count)) }
    {
        last_ended(&self.chunks, &self.hints, &gap.place, gap.before, marks)
    }

    /// The text that a reader sees. An error is out of memory (1). Linear.
    pub fn text(&self) -> Result<Text, AllocError>
        ensures { IfOk result (λ text. (ops : List Op) (doc : ℕ) → Holds self.now ops doc
            → text ≡ text_of ops doc) }
    {
        Ok(Text::from(values(&self.chunks)?))
    }
}
