//! An insert or a removal becomes operations.
ghost use Rattle.std.specs.Prelude.{◌≡◌, ◌↔◌, ◌≤◌, List, length, map, take, drop, true, false};
ghost use Rattle.std.specs.Prelude.{IfOk, IsErrOf};
ghost use Rattle.op_model.specs.declared.edit.Change.TheVariants as change;
ghost use Rattle.op_model.specs.declared.op.Op.{Op};
ghost use Rattle.op_model.specs.Made.{is_inside};
ghost use Rattle.op_model.specs.Text.{visible};
ghost use Rattle.op_ids.specs.Clock.{is_clock};
ghost use Rattle.char_sequence.specs.Gaps.{IsGap};
ghost use Rattle.doc_core.specs.Limits.{keep_limits as keep_limits_of};
ghost use Rattle.doc_core.specs.Making.{AreMade, LeaveEndedMarks};
ghost use Rattle.doc_core.specs.Standing.{StandsFor};

use crate::doc::Doc;
use crate::made::{Made, Part};
use crate::make_error::MakeError;
use crate::numbering::{keep_limits, remove_bodies, run};
use char_sequence::Gap;
use op_ids::OpId;
use op_ids::laws::replica_is_not_nil;
use op_model::{Author, EditText, insert_bodies, numbered};
use std::alloc::{AllocError, Global};
use std::num::NonZeroU32;

impl Doc {
    /// Makes the inserts of a text before the visible character at an index, or at the end: the
    /// author's next operations, each with its token. The document stays as it is. The first one's
    /// origin is the last of the tombstones at that place that a mark ends just after, or else the
    /// visible character before it, or none at the beginning. So a mark that ends there, as a link,
    /// doesn't cover the text.
    ///
    /// Refuses, in this order: `Range` (5) exactly where the index is above the length of the
    /// text, `Limit` (7) exactly where there are more than 256 characters, or a counter or the
    /// clock would pass its limit; then `Memory` (1) where a growth was refused. Costs one search
    /// of the place, as `Sequence::gap` does it, what `Sequence::last_ended_at` does, and a few
    /// steps for each character of the text.
    pub fn make_insert(
        &self,
        alloc: Global,
        author: &Author<'_>,
        at: u32,
        text: &EditText,
    ) -> Result<Made, MakeError>
        ensures made { IfOk result
            (AreMade self.now author.now (change.Insert at text.now)) }
        ensures not_covered { IfOk result
            (LeaveEndedMarks self.now author.now (change.Insert at text.now)) }
        ensures range { (ops : List Op) → StandsFor self.now ops → (IsErrOf result MakeError.Range
            ↔ (is_inside (length (visible ops self.now.number)) (change.Insert at text.now)
            ≡ false)) }
        ensures limit { (ops : List Op) → StandsFor self.now ops → (IsErrOf result MakeError.Limit
            ↔ ((is_inside (length (visible ops self.now.number)) (change.Insert at text.now)
            ≡ true) × (keep_limits_of author.now (length text.now) ≡ false))) }
    {
        let gap = match self.gap(at as usize) {
            Some(gap) => gap,
            None => return Err(MakeError::Range),
        };
        if !keep_limits(author, text.as_slice().len()) {
            return Err(MakeError::Limit);
        }
        Ok(self.typed(alloc, author, &gap, text)?)
    }

    /// Makes the removes of `count` visible characters from an index on, in the order of the text:
    /// the author's next operations, each with its token. The document stays as it is.
    ///
    /// Refuses, in this order: `Range` (5) exactly where they reach past the end of the text,
    /// `Limit` (7) exactly where they are more than 256, or a counter or the clock would pass its
    /// limit; then `Memory` (1) where a growth was refused. Costs what `Sequence::visible_range`
    /// does, and a step or two for each character.
    pub fn make_remove(
        &self,
        alloc: Global,
        author: &Author<'_>,
        at: u32,
        count: NonZeroU32,
    ) -> Result<Made, MakeError>
        ensures made { IfOk result
            (AreMade self.now author.now (change.Delete at count)) }
        ensures range { (ops : List Op) → StandsFor self.now ops → (IsErrOf result MakeError.Range
            ↔ (is_inside (length (visible ops self.now.number)) (change.Delete at count)
            ≡ false)) }
        ensures limit { (ops : List Op) → StandsFor self.now ops → (IsErrOf result MakeError.Limit
            ↔ ((is_inside (length (visible ops self.now.number)) (change.Delete at count)
            ≡ true) × (keep_limits_of author.now count.value ≡ false))) }
    {
        if !self.shows(at as usize + count.get() as usize) {
            return Err(MakeError::Range);
        }
        if !keep_limits(author, count.get() as usize) {
            return Err(MakeError::Limit);
        }
        Ok(self.erased(alloc, author, at as usize, count)?)
    }

    /// The inserts of a text at a place in it. An error is out of memory (1).
    fn typed(
        &self,
        alloc: Global,
        author: &Author<'_>,
        gap: &Gap,
        text: &EditText,
    ) -> Result<Made, AllocError>
        requires gap { IsGap self.now.characters gap.now }
        requires valid { is_clock author.now.clock.now ≡ true }
        requires limit { keep_limits_of author.now (length text.now) ≡ true }
        ensures { IfOk result (AreMade self.now author.now
            (change.Insert gap.now.count text.now)) }
    {
        let text = text.as_slice();
        let origin = &self.origin_at(gap);
        let bodies = insert_bodies(alloc, author.replica, author.counter, *origin, text)?;
        let ops = numbered(alloc, author, self.doc, &bodies)?;
        let run = run(alloc, author.replica, author.counter, text)?;
        Ok(Made {
            ops,
            part: Part::Run {
                origin: *origin,
                run,
            },
        })
    }

    /// The removes of `count` visible characters from an index on, or of as many as there are. An
    /// error is out of memory (1).
    fn erased(
        &self,
        alloc: Global,
        author: &Author<'_>,
        at: usize,
        count: NonZeroU32,
    ) -> Result<Made, AllocError>
        requires valid { is_clock author.now.clock.now ≡ true }
        requires limit { keep_limits_of author.now count.value ≡ true }
        ensures { IfOk result
            (AreMade self.now author.now (change.Delete at count)) }
    {
        // From this the proof has that fewer operations keep the limits too.
        replica_is_not_nil(author.replica);
        let targets = self.targets(at, count.get() as usize)?;
        let bodies = remove_bodies(alloc, &targets)?;
        let ops = numbered(alloc, author, self.doc, &bodies)?;
        Ok(Made {
            ops,
            part: Part::Removes { targets },
        })
    }

    /// The ids of `count` visible characters from an index on, or of as many as there are. An error
    /// is out of memory (1).
    fn targets(&self, at: usize, count: usize) -> Result<Vec<OpId>, AllocError>
        ensures all { IfOk result (λ targets. (ops : List Op) → StandsFor self.now ops
            → targets.items
            ≡ map (λ c. c.id) (take count (drop at (visible ops self.now.number)))) }
        ensures few { IfOk result (λ targets. length targets.items ≤ count) }
    {
        self.sequence.visible_range(at, count)
    }
}
