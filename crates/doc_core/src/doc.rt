//! One document.
ghost use Rattle.std.specs.Prelude.{◌≡◌, ◌≤◌, ◌<◌, ◌^◌, List, [], IfOk, IfSome, IsErrOf, is_some, length, nat_le};
ghost use Rattle.char_sequence.specs.Gaps.{IsGap};
ghost use Rattle.fixed_numbers.specs.declared.limits.TheConstants.{MAX_LISTED};
ghost use Rattle.op_model.specs.declared.op.Op.{Op};
ghost use Rattle.list_counts.specs.Documents.{wrote};
ghost use Rattle.op_model.specs.Causality.{clock_of};
ghost use Rattle.op_model.specs.Made.{id_before, is_inside as is_inside_of, origin_of};
ghost use Rattle.op_model.specs.Spans.{spans as spans_of};
ghost use Rattle.op_model.specs.Text.{text as text_of, rev as rev_of, visible};
ghost use Rattle.doc_core.specs.Standing.{StandsFor};
ghost use Rattle.span_flatten.specs.Listing.{listed};

use char_sequence::{Gap, Sequence};
use list_counts::Writers;
use mark_anchors::Anchors;
use op_ids::{OpId, ReplicaId};
use op_model::{Change, Span, Text};
use span_flatten::SpansError;
use std::alloc::{AllocError, Global};
use std::marker::Model;

/// A document. It stands for the operations that were applied to it: its characters in the order
/// of the text, tombstones too, its mark operations, and how many operations it has by whom.
#[derive(Debug, Drop)]
pub struct Doc {
    /// Its number.
    pub(crate) doc: u32,
    pub(crate) sequence: Sequence,
    pub(crate) anchors: Anchors,
    /// How many operations it has; 2^64 - 1 stands for more too.
    pub(crate) rev: u64,
    /// Who wrote in it.
    pub(crate) writers: Writers,
}

impl Model for Doc {
    ghost use Rattle.doc_core.specs.Standing.{Document};

    ghost Value = { Document };

    ghost view = { λ d. record {
      number = d.doc;
      characters = d.sequence;
      marks = d.anchors;
      rev = d.rev;
      writers = d.writers;
    } };
}

impl Doc {
    /// The document of this number without operations. Constant.
    pub fn new(alloc: Global, doc: u32) -> Doc
        ensures number { result.number ≡ doc }
        ensures empty { StandsFor result [] }
    {
        Doc {
            doc,
            sequence: Sequence::new(alloc),
            anchors: Anchors::new(alloc),
            rev: 0,
            writers: Writers::new(),
        }
    }

    /// The same document again, on which changes can be made while this one stays. An error is out
    /// of memory (1). A step for each 256 characters and for each mark operation; the rest is
    /// copied as memory.
    pub fn copy(&self) -> Result<Doc, AllocError>
        ensures { IfOk result (λ copied. copied ≡ self.now) }
    {
        Ok(Doc {
            doc: self.doc,
            sequence: self.sequence.copy()?,
            anchors: self.anchors.copy()?,
            rev: self.rev,
            writers: self.writers.copy(),
        })
    }

    /// Its number. Constant.
    pub fn number(&self) -> u32
        ensures { result ≡ self.now.number }
    {
        self.doc
    }

    /// The text that a reader sees. An error is out of memory (1). Linear in the characters,
    /// tombstones counted.
    pub fn text(&self) -> Result<Text, AllocError>
        ensures { IfOk result (λ text. (ops : List Op) → StandsFor self.now ops
            → text ≡ text_of ops self.now.number) }
    {
        self.sequence.text()
    }

    /// The text that a reader sees, cut where the marks change. An answer lists at most 1,048,576
    /// comment ids, one counted in each span that lists it: `Listing` (1) comes only where they
    /// would be more, `Memory` (1) where a growth was refused. Costs what `span_flatten::spans`
    /// does.
    pub fn spans(&self) -> Result<Vec<Span>, SpansError>
        ensures spans { IfOk result (λ found. (ops : List Op) → StandsFor self.now ops
            → found.items ≡ spans_of ops self.now.number) }
        ensures few { IfOk result (λ found. listed found.items ≤ MAX_LISTED) }
        ensures listing { IsErrOf result SpansError.Listing → (ops : List Op)
            → StandsFor self.now ops → MAX_LISTED < listed (spans_of ops self.now.number) }
    {
        span_flatten::spans(&self.sequence, &self.anchors)
    }

    /// How many operations the document has, if fewer than 2^64. Takes no memory. Constant.
    pub fn rev(&self) -> u64
        ensures { (ops : List Op) → StandsFor self.now ops
            → rev_of ops self.now.number < 2 ^ 64 → result ≡ rev_of ops self.now.number }
    {
        self.rev
    }

    /// Whether a replica has an operation of the document, if the list has at most 16 replicas.
    /// Takes no memory. At most 16 steps.
    pub fn was_written_by(&self, replica: ReplicaId) -> bool
        ensures { (ops : List Op) → StandsFor self.now ops
            → length (clock_of ops) ≤ 16 → result ≡ wrote ops self.now.number replica }
    {
        self.writers.has(replica)
    }

    /// How many characters are visible. Takes no memory. Constant.
    pub fn shown(&self) -> usize
        ensures shown { (ops : List Op) → StandsFor self.now ops
            → result ≡ length (visible ops self.now.number) }
        ensures few { result ≤ 2 ^ 63 }
    {
        self.sequence.shown()
    }

    /// Whether at least `count` characters are visible. Takes no memory. Constant.
    pub fn shows(&self, count: usize) -> bool
        ensures { (ops : List Op) → StandsFor self.now ops
            → result ≡ nat_le count (length (visible ops self.now.number)) }
    {
        self.sequence.shows(count)
    }

    /// Whether a change lies within the text. Takes no memory. Constant.
    pub fn is_inside(&self, change: &Change) -> bool
        ensures { (ops : List Op) → StandsFor self.now ops
            → result ≡ is_inside_of (length (visible ops self.now.number)) change.now }
    {
        match change {
            Change::Insert { at, .. } => self.shows(*at as usize),
            Change::Delete { at, count } => self.shows(*at as usize + count.get() as usize),
            Change::Mark { from, to, .. } => *from < *to && self.shows(*to as usize),
            Change::Unmark { from, to, .. } => *from < *to && self.shows(*to as usize),
        }
    }

    /// The visible character before an index, or none at the beginning and past the end. Takes no
    /// memory. Costs what `Sequence::visible` does.
    pub(crate) fn last_before(&self, at: usize) -> Option<OpId>
        ensures { (ops : List Op) → StandsFor self.now ops
            → result ≡ id_before (visible ops self.now.number) at }
    {
        if at == 0 {
            return None;
        }
        self.sequence.visible(at - 1)
    }

    /// Where an insert behind `at` visible characters hangs. Takes no memory. Costs what
    /// `Sequence::last_ended` does.
    pub fn origin(&self, at: usize) -> Option<OpId>
        ensures { (ops : List Op) → StandsFor self.now ops
            → result ≡ origin_of ops self.now.number at }
    {
        let before = self.last_before(at);
        self.sequence.last_ended(at, before, &self.anchors)
    }

    /// The place behind `at` visible characters, or none where there are fewer. Takes no memory.
    /// Costs what `Sequence::visible` does.
    pub(crate) fn gap(&self, at: usize) -> Option<Gap>
        ensures there { (ops : List Op) → StandsFor self.now ops
            → is_some result ≡ nat_le at (length (visible ops self.now.number)) }
        ensures gap { IfSome result (λ gap. (gap.count ≡ at) × IsGap self.now.characters gap) }
    {
        self.sequence.gap(at)
    }

    /// Where an insert at such a place hangs. Costs what `Sequence::last_ended_at` does.
    pub(crate) fn origin_at(&self, gap: &Gap) -> Option<OpId>
        requires { IsGap self.now.characters gap.now }
        ensures { (ops : List Op) → StandsFor self.now ops
            → result ≡ origin_of ops self.now.number gap.now.count }
    {
        self.sequence.last_ended_at(gap, &self.anchors)
    }
}
