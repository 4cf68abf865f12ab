//! The marks of a character, before and now, while one after another is passed.
ghost use Rattle.std.specs.Prelude.{◌≡◌, ◌≤◌, ◌++◌, ℕ, Bool, List, length, true, false, IfOk, OnOk};
ghost use Rattle.char_sequence.specs.declared.cell.Cell as stored;
ghost use Rattle.char_sequence.specs.Chunks.{cells_of, ChunkCells};
ghost use Rattle.op_model.specs.declared.marking.Marking as marking;
ghost use Rattle.span_flatten.specs.Reading.{offset};
ghost use Rattle.span_flatten.specs.Spots.{AreSpots, IsBorder};
ghost use Rattle.span_flatten.specs.Passing.{IsDecided, IsLooked, IsMarked};
ghost use Rattle.span_flatten.specs.Sweeping.{with_edges, IsActive};

use crate::active::Active;
use crate::spot::Spot;
use mark_anchors::Edge;
use op_model::{CommentIds, Marking, Marks};
use std::alloc::{AllocError, Global};

/// Where characters are passed one after another: the mark operations that have begun and not
/// ended, among those of before and among all, and the marks that they give.
#[derive(Drop)]
pub struct Marked {
    /// Of the mark operations of before.
    pub past: Active,
    /// Of all mark operations.
    pub present: Active,
    /// Whether some began or ended since the marks were looked at.
    pub is_changed: bool,
    /// The marks by all, when they were looked at.
    pub marks: Marks,
    /// Whether the marks by those of before were the same.
    pub are_same: bool,
}

impl Marked {
    /// At the start of the text. An error is out of memory (1). Linear in the mark operations.
    pub(crate) fn new(
        alloc: Global,
        past: &[Marking],
        markings: &[Marking],
    ) -> Result<Marked, AllocError>
        ensures { IfOk result (λ m. (cells : List stored.Cell)
            → IsMarked m cells past.now markings.now 0 0) }
    {
        Ok(Marked {
            past: Active::new(alloc, past)?,
            present: Active::new(alloc, markings)?,
            is_changed: true,
            marks: no_marks(alloc),
            are_same: true,
        })
    }

    /// At the beginning of a chunk, by the spots of all mark operations. An error is out of memory
    /// (1). A step for each, and a search among those of its key for each one that has begun and
    /// not ended.
    pub(crate) fn at(
        alloc: Global,
        spots: &[Spot],
        past: &[Marking],
        markings: &[Marking],
        chunk: usize,
    ) -> Result<Marked, AllocError>
        requires { length past.now ≤ length spots.now }
        ensures { IfOk result (λ m. (held : ChunkCells) (news : List marking.Marking)
            → markings.now ≡ past.now ++ news → AreSpots held spots.now markings.now
            → IsBorder held chunk → IsMarked m (cells_of held) past.now markings.now
            (offset held chunk) (offset held chunk)) }
    {
        Ok(Marked {
            past: Active::at(alloc, &spots[..past.len()], past, chunk)?,
            present: Active::at(alloc, spots, markings, chunk)?,
            is_changed: true,
            marks: no_marks(alloc),
            are_same: true,
        })
    }

    /// Takes the edges on one side of a character. An error is out of memory (1). For each edge a
    /// search among those of its key that have begun and not ended.
    pub(crate) fn take(
        &mut self,
        alloc: Global,
        edges: &[Edge],
        is_after: bool,
        past: &[Marking],
        markings: &[Marking],
    ) -> Result<(), AllocError>
        ensures past { OnOk result ((n : ℕ) (begun ended : ℕ → Bool)
            → IsActive self.old.past n begun ended → IsActive self.new.past n
            (with_edges is_after false edges.now begun)
            (with_edges is_after true edges.now ended)) }
        ensures present { OnOk result ((n : ℕ) (begun ended : ℕ → Bool)
            → IsActive self.old.present n begun ended → IsActive self.new.present n
            (with_edges is_after false edges.now begun)
            (with_edges is_after true edges.now ended)) }
        ensures decided { OnOk result (IsDecided self.old past.now markings.now
            → IsDecided self.new past.now markings.now) }
    {
        if edges.is_empty() {
            return Ok(());
        }
        self.is_changed = true;
        self.past.take(alloc, edges, is_after, past)?;
        self.present.take(alloc, edges, is_after, markings)
    }

    /// Looks at the marks, if mark operations began or ended since they were looked at. An error is
    /// out of memory (1). A copy of the links, and of the comments that stand.
    pub(crate) fn look(
        &mut self,
        alloc: Global,
        past: &[Marking],
        markings: &[Marking],
    ) -> Result<(), AllocError>
        ensures looked { OnOk result (IsDecided self.old past.now markings.now
            → IsLooked self.new past.now markings.now) }
        ensures past { self.new.past ≡ self.old.past }
        ensures present { self.new.present ≡ self.old.present }
    {
        if !self.is_changed {
            return Ok(());
        }
        let before = self.past.marks(alloc, past)?;
        let marks = self.present.marks(alloc, markings)?;
        self.are_same = before.are_same(&marks);
        self.marks = marks;
        self.is_changed = false;
        Ok(())
    }
}

/// No marks. Takes no memory.
fn no_marks(alloc: Global) -> Marks {
    Marks {
        strong: false,
        em: false,
        link: None,
        comments: CommentIds::from(Vec::new(alloc)),
    }
}
