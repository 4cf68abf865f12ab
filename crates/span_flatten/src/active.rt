//! The mark operations over a character, while one after another is passed.
ghost use Rattle.std.specs.Prelude.{◌≡◌, [], ◌==◌};
ghost use Rattle.std.specs.Prelude.{◌||◌, ◌&&◌, ℕ, Bool, List, true, false, not};
ghost use Rattle.std.specs.Prelude.{length, nat_lt, IfOk, OnOk};
ghost use Rattle.std.proofs.Common.{get_or, replicate, set};
ghost use Rattle.op_model.specs.declared.marking.Marking as stored;
ghost use Rattle.op_model.specs.Spans.{is_same_marks};
ghost use Rattle.op_model.specs.Rising.{IsUp};
ghost use Rattle.comment_marks.specs.Standing.{standing};
ghost use Rattle.span_flatten.specs.Deciding.{Decides, IsNoted};
ghost use Rattle.span_flatten.specs.Formatting.{marks_in};
ghost use Rattle.span_flatten.specs.Picking.{picked};
ghost use Rattle.span_flatten.specs.Sweeping.{has_begun, is_edge, is_from_start, kept};
ghost use Rattle.span_flatten.specs.Spots.{is_across, is_over};
ghost use Rattle.span_flatten.specs.Sweeping.{passes, with_edges, IsActive};

use crate::deciding::Deciding;
use crate::spot::Spot;
use mark_anchors::Edge;
use op_model::{Marking, Marks, Start};
use std::alloc::{AllocError, Global};

/// Where characters are passed one after another: the mark operations that have begun and not
/// ended.
#[derive(Drop)]
pub struct Active {
    /// For each mark operation whether it has ended.
    pub ended: Vec<bool>,
    /// For each mark operation whether it has begun and not ended.
    pub in_force: Vec<bool>,
    /// Those in force, for each key.
    pub deciding: Deciding,
}

impl Active {
    /// Those at the start of the text. An error is out of memory (1). For each mark operation a
    /// search among those of its key.
    pub(crate) fn new(alloc: Global, markings: &[Marking]) -> Result<Active, AllocError>
        ensures active { IfOk result (λ a. IsActive a (length markings.now)
            (passes is_from_start markings.now) (λ i. false)) }
        ensures noted { IfOk result (λ a. IsNoted a.deciding.comments []) }
        ensures deciding { IfOk result (λ a. Decides a.deciding markings.now (kept a)) }
    {
        let mut active = Active::none(alloc, markings.len())?;
        for (i, marking) in markings.iter().enumerate() {
            if begins_text(&marking.start) {
                active.begin(alloc, i, markings)?;
            }
        }
        Ok(active)
    }

    /// Those at the beginning of a chunk, by their spots. An error is out of memory (1). A step for
    /// each mark operation, and a search among those of its key for each one that has begun and
    /// not ended.
    pub(crate) fn at(
        alloc: Global,
        spots: &[Spot],
        markings: &[Marking],
        chunk: usize,
    ) -> Result<Active, AllocError>
        ensures active { IfOk result (λ a. IsActive a (length markings.now)
            (passes (is_across chunk) spots.now) (passes (is_over chunk) spots.now)) }
        ensures deciding { IfOk result (λ a. Decides a.deciding markings.now (kept a)) }
    {
        let mut active = Active::none(alloc, markings.len())?;
        for (i, spot) in spots.iter().enumerate() {
            if spot.to <= chunk {
                active.skip(i);
            } else if spot.from <= chunk {
                active.begin(alloc, i, markings)?;
            }
        }
        Ok(active)
    }

    /// A mark operation ends that hasn't begun.
    fn skip(&mut self, i: usize)
        ensures active { (n : ℕ) (begun ended : ℕ → Bool) → begun i ≡ false
            → IsActive self.old n begun ended
            → IsActive self.new n begun (λ j. ended j || i == j) }
        ensures deciding { (ms : List stored.Marking) → Decides self.old.deciding ms (kept self.old)
            → Decides self.new.deciding ms (kept self.new) }
    {
        put_flag(&mut self.ended, i, true);
    }

    /// Of `count` mark operations that none has begun. An error is out of memory (1).
    fn none(alloc: Global, count: usize) -> Result<Active, AllocError>
        ensures active { IfOk result (λ a. IsActive a count (λ i. false) (λ i. false)) }
        ensures noted { IfOk result (λ a. IsNoted a.deciding.comments []) }
        ensures deciding { IfOk result (λ a. (ms : List stored.Marking)
            → Decides a.deciding ms (kept a)) }
    {
        Ok(Active {
            ended: no_flags(alloc, count)?,
            in_force: no_flags(alloc, count)?,
            deciding: Deciding::new(alloc),
        })
    }

    /// Takes the edges on one side of a character. An error is out of memory (1). For each edge a
    /// search among those of its key that have begun and not ended.
    pub(crate) fn take(
        &mut self,
        alloc: Global,
        edges: &[Edge],
        is_after: bool,
        markings: &[Marking],
    ) -> Result<(), AllocError>
        ensures active { OnOk result ((n : ℕ) (begun ended : ℕ → Bool)
            → IsActive self.old n begun ended → IsActive self.new n
            (with_edges is_after false edges.now begun)
            (with_edges is_after true edges.now ended)) }
        ensures noted { OnOk result ((ids : List ℕ) → IsNoted self.old.deciding.comments ids
            → IsNoted self.new.deciding.comments ids) }
        ensures deciding { OnOk result (Decides self.old.deciding markings.now (kept self.old)
            → Decides self.new.deciding markings.now (kept self.new)) }
        ensures none { edges.now ≡ [] → self.new ≡ self.old }
    {
        for edge in edges {
            self.take_one(alloc, edge, is_after, markings)?;
        }
        Ok(())
    }

    /// Takes an edge, if it is on this side of its character. An error is out of memory (1).
    fn take_one(
        &mut self,
        alloc: Global,
        edge: &Edge,
        is_after: bool,
        markings: &[Marking],
    ) -> Result<(), AllocError>
        ensures active { OnOk result ((n : ℕ) (begun ended : ℕ → Bool)
            → IsActive self.old n begun ended → IsActive self.new n
            (λ i. begun i || is_edge is_after false i edge.now)
            (λ i. ended i || is_edge is_after true i edge.now)) }
        ensures noted { OnOk result ((ids : List ℕ) → IsNoted self.old.deciding.comments ids
            → IsNoted self.new.deciding.comments ids) }
        ensures deciding { OnOk result (Decides self.old.deciding markings.now (kept self.old)
            → Decides self.new.deciding markings.now (kept self.new)) }
    {
        if edge.is_after != is_after {
            return Ok(());
        }
        self.pass(alloc, edge, markings)
    }

    /// Takes an edge. An error is out of memory (1).
    fn pass(&mut self, alloc: Global, edge: &Edge, markings: &[Marking]) -> Result<(), AllocError>
        ensures active { OnOk result ((n : ℕ) (begun ended : ℕ → Bool)
            → IsActive self.old n begun ended → IsActive self.new n
            (λ i. begun i || (not edge.now.is_end && edge.now.marking == i))
            (λ i. ended i || (edge.now.is_end && edge.now.marking == i))) }
        ensures noted { OnOk result ((ids : List ℕ) → IsNoted self.old.deciding.comments ids
            → IsNoted self.new.deciding.comments ids) }
        ensures deciding { OnOk result (Decides self.old.deciding markings.now (kept self.old)
            → Decides self.new.deciding markings.now (kept self.new)) }
    {
        if edge.is_end {
            return self.end(edge.marking, markings);
        }
        self.begin(alloc, edge.marking, markings)
    }

    /// A mark operation begins: it is kept, unless it has ended. An error is out of memory (1).
    fn begin(&mut self, alloc: Global, i: usize, markings: &[Marking]) -> Result<(), AllocError>
        ensures active { OnOk result ((n : ℕ) (begun ended : ℕ → Bool)
            → IsActive self.old n begun ended
            → IsActive self.new n (λ j. begun j || i == j) ended) }
        ensures noted { OnOk result ((ids : List ℕ) → IsNoted self.old.deciding.comments ids
            → IsNoted self.new.deciding.comments ids) }
        ensures deciding { OnOk result (Decides self.old.deciding markings.now (kept self.old)
            → Decides self.new.deciding markings.now (kept self.new)) }
    {
        if !self.may_begin(i) {
            return Ok(());
        }
        put_flag(&mut self.in_force, i, true);
        self.deciding.begin(alloc, i, markings)
    }

    /// Whether a mark operation is there and hasn't ended.
    fn may_begin(&self, i: usize) -> bool
        ensures { result ≡ (nat_lt i (length self.now.in_force.items)
            && not (get_or self.now.ended.items i true)) }
    {
        i < self.in_force.len() && !has_ended(&self.ended, i)
    }

    /// A mark operation ends: it isn't kept, even where it begins later. An error is out of memory
    /// (1): an older comment may stand again.
    fn end(&mut self, i: usize, markings: &[Marking]) -> Result<(), AllocError>
        ensures active { OnOk result ((n : ℕ) (begun ended : ℕ → Bool)
            → IsActive self.old n begun ended
            → IsActive self.new n begun (λ j. ended j || i == j)) }
        ensures noted { OnOk result ((ids : List ℕ) → IsNoted self.old.deciding.comments ids
            → IsNoted self.new.deciding.comments ids) }
        ensures deciding { OnOk result (Decides self.old.deciding markings.now (kept self.old)
            → Decides self.new.deciding markings.now (kept self.new)) }
    {
        put_flag(&mut self.in_force, i, false);
        put_flag(&mut self.ended, i, true);
        self.deciding.end(i, markings)
    }

    /// The marks of a character that just the mark operations cover that have begun and not ended.
    /// An error is out of memory (1). A copy of the link, and of the comments that stand.
    pub(crate) fn marks(&self, alloc: Global, markings: &[Marking]) -> Result<Marks, AllocError>
        ensures { IfOk result (λ marks. IsUp (kept self.now)
            → Decides self.now.deciding markings.now (kept self.now)
            → marks ≡ marks_in (picked markings.now (kept self.now))) }
    {
        self.deciding.marks(alloc, markings)
    }

    /// Whether these are those marks, and list the comments that were noted. Takes no memory.
    pub(crate) fn are_marks(&self, marks: &Marks, markings: &[Marking]) -> bool
        ensures { IsUp (kept self.now) → Decides self.now.deciding markings.now (kept self.now)
            → IsNoted self.now.deciding.comments marks.now.comments
            → result ≡ is_same_marks marks.now (marks_in (picked markings.now (kept self.now))) }
    {
        self.deciding.are_marks(marks, markings)
    }

    /// Notes the comments that stand. Linear in those that differ from those that were noted.
    pub(crate) fn note(&mut self)
        ensures flags { (self.new.ended ≡ self.old.ended)
            × (self.new.in_force ≡ self.old.in_force) }
        ensures noted { (ms : List stored.Marking) → Decides self.old.deciding ms (kept self.old)
            → Decides self.new.deciding ms (kept self.old)
            × IsNoted self.new.deciding.comments (standing (picked ms (kept self.old))) }
    {
        self.deciding.note();
    }
}

/// For `count` mark operations a flag that isn't set. An error is out of memory (1).
fn no_flags(alloc: Global, count: usize) -> Result<Vec<bool>, AllocError>
    ensures { IfOk result (λ flags. flags.items ≡ replicate count false) }
{
    vec![in alloc; false; count]
}

/// Whether a mark operation with this start begins at the start of the text.
fn begins_text(start: &Start) -> bool
    ensures { result ≡ has_begun [] 0 0 start.now }
{
    match start {
        Start::OfText => true,
        Start::From(_) => false,
    }
}

/// Whether a mark operation has ended, or isn't there.
fn has_ended(ended: &[bool], i: usize) -> bool
    ensures { result ≡ get_or ended.now i true }
{
    if i < ended.len() {
        return ended[i];
    }
    true
}

/// Sets the i-th flag, if it is there.
fn put_flag(flags: &mut Vec<bool>, i: usize, flag: bool)
    ensures { flags.new.items ≡ set flags.old.items i flag }
{
    if i < flags.len() {
        flags[i] = flag;
    }
}
