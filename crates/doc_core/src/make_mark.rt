//! A mark or its removal becomes an operation.
ghost use Rattle.std.specs.Prelude.{◌≡◌, ◌↔◌, true, false, List, [], ◌∷◌, length, IfOk, IsErrOf};
ghost use Rattle.op_model.specs.declared.edit.Change.TheVariants as change;
ghost use Rattle.op_model.specs.declared.op.Op.{Op};
ghost use Rattle.op_model.specs.Made.{start_of, end_of};
ghost use Rattle.op_model.specs.Made.{is_inside, numbered as numbered_from, size_of};
ghost use Rattle.op_model.specs.Text.{visible};
ghost use Rattle.op_ids.specs.Clock.{is_clock};
ghost use Rattle.doc_core.specs.Limits.{keep_limits as keep_limits_of};
ghost use Rattle.doc_core.specs.Making.{AreMade, LeaveEndedMarks};
ghost use Rattle.doc_core.specs.Standing.{StandsFor};

use crate::doc::Doc;
use crate::made::{Made, Part};
use crate::make_error::MakeError;
use crate::numbering::keep_limits;
use op_model::{Author, Body, Change, End, Mark, MarkKey, Start, numbered};
use std::alloc::{AllocError, Global};
use std::ops::Range;

impl Doc {
    /// Makes the operation that puts a mark on the visible characters from an index up to another,
    /// that one not: the author's next operation, with its token. The document stays as it is. It
    /// begins just before its first character. Strong and em end just before the next visible one,
    /// or at the end of the text; a link and a comment end just after their last character.
    ///
    /// Refuses, in this order: `Range` (5) exactly where there is no such character, `Limit` (7)
    /// exactly where the counter or the clock would pass its limit; then `Memory` (1) where a
    /// growth was refused. Linear in the characters.
    pub fn make_mark(
        &self,
        alloc: Global,
        author: &Author<'_>,
        range: Range<u32>,
        mark: &Mark,
    ) -> Result<Made, MakeError>
        ensures made { IfOk result
            (AreMade self.now author.now (change.Mark range.start range.end mark.now)) }
        ensures range { (ops : List Op) → StandsFor self.now ops → (IsErrOf result MakeError.Range
            ↔ (is_inside (length (visible ops self.now.number))
            (change.Mark range.start range.end mark.now) ≡ false)) }
        ensures limit { (ops : List Op) → StandsFor self.now ops → (IsErrOf result MakeError.Limit
            ↔ ((is_inside (length (visible ops self.now.number))
            (change.Mark range.start range.end mark.now) ≡ true)
            × (keep_limits_of author.now 1 ≡ false))) }
    {
        if range.start >= range.end || !self.shows(range.end as usize) {
            return Err(MakeError::Range);
        }
        if !keep_limits(author, 1) {
            return Err(MakeError::Limit);
        }
        Ok(self.marked(alloc, author, range, mark)?)
    }

    /// Makes the operation that takes a mark from the visible characters from an index up to
    /// another, that one not. It begins, ends and is refused as `make_mark`.
    pub fn make_unmark(
        &self,
        alloc: Global,
        author: &Author<'_>,
        range: Range<u32>,
        key: &MarkKey,
    ) -> Result<Made, MakeError>
        ensures made { IfOk result
            (AreMade self.now author.now (change.Unmark range.start range.end key.now)) }
        ensures range { (ops : List Op) → StandsFor self.now ops → (IsErrOf result MakeError.Range
            ↔ (is_inside (length (visible ops self.now.number))
            (change.Unmark range.start range.end key.now) ≡ false)) }
        ensures limit { (ops : List Op) → StandsFor self.now ops → (IsErrOf result MakeError.Limit
            ↔ ((is_inside (length (visible ops self.now.number))
            (change.Unmark range.start range.end key.now) ≡ true)
            × (keep_limits_of author.now 1 ≡ false))) }
    {
        if range.start >= range.end || !self.shows(range.end as usize) {
            return Err(MakeError::Range);
        }
        if !keep_limits(author, 1) {
            return Err(MakeError::Limit);
        }
        Ok(self.unmarked(alloc, author, range, key)?)
    }

    /// Makes the operations of a change: the author's next operations, each with its token. It is
    /// refused as the call for its kind.
    pub fn make(
        &self,
        alloc: Global,
        author: &Author<'_>,
        change: &Change,
    ) -> Result<Made, MakeError>
        ensures made { IfOk result (AreMade self.now author.now change.now) }
        ensures not_covered { IfOk result (LeaveEndedMarks self.now author.now change.now) }
        ensures range { (ops : List Op) → StandsFor self.now ops → (IsErrOf result MakeError.Range
            ↔ (is_inside (length (visible ops self.now.number)) change.now ≡ false)) }
        ensures limit { (ops : List Op) → StandsFor self.now ops → (IsErrOf result MakeError.Limit
            ↔ ((is_inside (length (visible ops self.now.number)) change.now ≡ true)
            × (keep_limits_of author.now (size_of change.now) ≡ false))) }
    {
        match change {
            Change::Insert { at, text } => self.make_insert(alloc, author, *at, text),
            Change::Delete { at, count } => self.make_remove(alloc, author, *at, *count),
            Change::Mark { from, to, mark } => self.make_mark(alloc, author, *from..*to, mark),
            Change::Unmark { from, to, key } => self.make_unmark(alloc, author, *from..*to, key),
        }
    }

    /// The operation that puts a mark on characters. An error is out of memory (1).
    fn marked(
        &self,
        alloc: Global,
        author: &Author<'_>,
        range: Range<u32>,
        mark: &Mark,
    ) -> Result<Made, AllocError>
        requires valid { is_clock author.now.clock.now ≡ true }
        requires limit { keep_limits_of author.now 1 ≡ true }
        ensures { IfOk result
            (AreMade self.now author.now (change.Mark range.start range.end mark.now)) }
    {
        let body = Body::AddMark {
            mark: mark.copy()?,
            start: self.start(range.start as usize),
            end: self.end(&mark.key(), range.end as usize),
        };
        self.one(alloc, author, body)
    }

    /// The operation that takes a mark from characters. An error is out of memory (1).
    fn unmarked(
        &self,
        alloc: Global,
        author: &Author<'_>,
        range: Range<u32>,
        key: &MarkKey,
    ) -> Result<Made, AllocError>
        requires valid { is_clock author.now.clock.now ≡ true }
        requires limit { keep_limits_of author.now 1 ≡ true }
        ensures { IfOk result
            (AreMade self.now author.now (change.Unmark range.start range.end key.now)) }
    {
        let body = Body::RemoveMark {
            key: *key,
            start: self.start(range.start as usize),
            end: self.end(key, range.end as usize),
        };
        self.one(alloc, author, body)
    }

    /// The one operation that does this. An error is out of memory (1).
    fn one(&self, alloc: Global, author: &Author<'_>, body: Body) -> Result<Made, AllocError>
        requires valid { is_clock author.now.clock.now ≡ true }
        requires limit { keep_limits_of author.now 1 ≡ true }
        ensures { IfOk result (λ made.
            made ≡ numbered_from author.now.replica
            self.now.number author.now.token author.now.counter author.now.clock.now (body ∷ [])) }
    {
        let bodies = only(alloc, body)?;
        let ops = numbered(alloc, author, self.doc, &bodies)?;
        Ok(Made {
            ops,
            part: Part::One,
        })
    }

    /// Just before the visible character at an index.
    fn start(&self, from: usize) -> Start
        ensures { (ops : List Op) → StandsFor self.now ops
            → result ≡ start_of (visible ops self.now.number) from }
    {
        Start::before(self.sequence.visible(from))
    }

    /// Where a mark of this key ends that is put on the visible characters before an index.
    fn end(&self, key: &MarkKey, to: usize) -> End
        ensures { (ops : List Op) → StandsFor self.now ops
            → result ≡ end_of (visible ops self.now.number) key.now to }
    {
        match key {
            MarkKey::Strong | MarkKey::Em => End::before(self.sequence.visible(to)),
            MarkKey::Link | MarkKey::Comment(_) => End::after(self.last_before(to)),
        }
    }
}

/// The list of one body. An error is out of memory (1).
fn only(alloc: Global, body: Body) -> Result<Vec<Body>, AllocError>
    ensures { IfOk result (λ bodies. bodies.items ≡ body ∷ []) }
{
    let mut bodies = Vec::new(alloc);
    bodies.push(body)?;
    Ok(bodies)
}
