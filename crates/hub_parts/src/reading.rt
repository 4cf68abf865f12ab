//! What the locked part tells of itself.
ghost use Rattle.std.specs.Prelude.{◌≡◌, IfOk, IfSome, is_some, option_map, take};
ghost use Rattle.list_counts.specs.Documents.{all_counted, held_room};
ghost use Rattle.list_counts.specs.Versions.{versions as versions_of};
ghost use Rattle.op_model.specs.Causality.{clock_of};
ghost use Rattle.op_model.specs.Machine.{known_ticket};
ghost use Rattle.op_model.specs.Spans.{spans as spans_of};
ghost use Rattle.op_model.specs.Text.{text as text_of, rev as rev_of};
ghost use Rattle.replica_core.specs.Held.{IsSound};
ghost use Rattle.replica_core.specs.Changed.{TellsChanges};
ghost use Rattle.replica_core.specs.Past.{spans_past, text_past};
ghost use Rattle.replica_core.specs.Places.{anchors_of, are_within, places_of};
ghost use Rattle.replica_core.specs.RefusedAt.{refused_at as refused_at_of};

use crate::locked::Locked;
use list_counts::{DocumentCounts, Room, Version};
use op_ids::{Clock, ReplicaId};
use op_model::{Action, ChangeStep, Lasting, Neighbour, Span, Text};
use replica_core::Ticket;
use run_list::RunSlice;
use std::alloc::AllocError;

impl Locked {
    /// The name of the replica.
    pub fn replica(&self) -> ReplicaId
        ensures { result ≡ self.now.replica.replica }
    {
        self.replica.replica()
    }

    /// The operations, in the order of application. The list is causally closed, replaying the kept
    /// steps gives it, and what is acknowledged and told is settled.
    pub fn list(&self) -> RunSlice<'_>
        ensures list { result ≡ self.now.replica.list }
        ensures sound { IsSound self.now.replica }
    {
        self.replica.list()
    }

    /// How many operations of each replica the list has.
    pub fn clock(&self) -> &Clock
        ensures { result.now ≡ clock_of self.now.replica.list }
    {
        self.replica.clock()
    }

    /// How many operations, from the beginning of the list, are settled.
    pub fn settled(&self) -> usize
        ensures { result ≡ self.now.replica.settled }
    {
        self.replica.settled()
    }

    /// How many operations, from the beginning of the list, are settled or in the commit.
    pub fn begun(&self) -> usize
        ensures { result ≡ self.now.begun }
    {
        self.begun
    }

    /// The greatest number of operations that an edit answered as settled needed.
    pub fn acked(&self) -> usize
        ensures { result ≡ self.now.replica.acked }
    {
        self.replica.acked()
    }

    /// The greatest number of operations that a telling needed.
    pub fn told(&self) -> usize
        ensures { result ≡ self.now.replica.told }
    {
        self.replica.told()
    }

    /// Whether a meeting has told a failure of the device.
    pub fn is_failure_told(&self) -> bool
        ensures { result ≡ self.now.failure_told }
    {
        self.failure_told
    }

    /// The ticket that an edit had when it was made, if it has a token under which one was made.
    /// Takes no memory. Costs what `Replica::known` does.
    pub fn known(&self, edit: &Action) -> Option<Ticket>
        ensures { result ≡ known_ticket self.now.replica edit.now }
    {
        self.replica.known(edit)
    }

    /// Which of several changes a new edit is refused for, counted from 0: with 5 or 7, if `edit`
    /// comes to it. Takes no memory. Costs what `Replica::refused_at` does.
    pub fn refused_at(&self, edit: &Action) -> Option<usize>
        ensures { result
            ≡ refused_at_of self.now.replica.list self.now.replica.replica edit.now }
    {
        self.replica.refused_at(edit)
    }

    /// How many operations a document has. Costs what `Replica::rev` does.
    pub fn rev(&self, doc: u32) -> usize
        ensures { result ≡ rev_of self.now.replica.list doc }
    {
        self.replica.rev(doc)
    }

    /// How many settled operations a document has: those that a commit has brought to the device,
    /// so that they outlive a power cut. Takes no memory. Costs what `Replica::rev` does, and a
    /// search by halves for each operation that isn't settled.
    pub fn settled_rev(&self, doc: u32) -> usize
        ensures { result
            ≡ rev_of (take self.now.replica.settled self.now.replica.list) doc }
    {
        let list = self.list();
        let mut count = self.rev(doc);
        for i in self.settled()..list.len() {
            if list.head(i).doc == doc {
                count -= 1;
            }
        }
        count
    }

    /// How much there is of what there is a limit to, unsettled operations included. Constant.
    pub fn room(&self) -> Room
        ensures { result ≡ held_room self.now.replica }
    {
        self.replica.room()
    }

    /// What is counted of each document that has operations, unsettled ones included, in rising
    /// order of their numbers. An error is out of memory (1). Costs what `Replica::documents` does.
    pub fn documents(&self) -> Result<Vec<DocumentCounts>, AllocError>
        ensures { IfOk result (λ counts. counts.items ≡ all_counted self.now.replica.list) }
    {
        self.replica.documents()
    }

    /// The text of a document, unsettled operations included. An error is out of memory (1). Costs
    /// what `Replica::text` does.
    pub fn text(&self, doc: u32) -> Result<Text, AllocError>
        ensures { IfOk result (λ seen. seen ≡ text_of self.now.replica.list doc) }
    {
        self.replica.text(doc)
    }

    /// The text of a document, cut where the marks change. An error is out of memory (1). Costs
    /// what `Replica::spans` does.
    pub fn spans(&self, doc: u32) -> Result<Vec<Span>, AllocError>
        ensures { IfOk result (λ found. found.items ≡ spans_of self.now.replica.list doc) }
    {
        self.replica.spans(doc)
    }

    /// The text of a document as it was when it had `rev` operations, the first ones in this list.
    /// `None` if it has fewer. An error is out of memory (1). Costs what `Replica::text_at` does.
    pub fn text_at(&self, doc: u32, rev: usize) -> Result<Option<Text>, AllocError>
        ensures { IfOk result (λ found. found ≡ text_past self.now.replica.list doc rev) }
    {
        self.replica.text_at(doc, rev)
    }

    /// The spans of a document as it was likewise. Costs what `Replica::spans_at` does.
    pub fn spans_at(&self, doc: u32, rev: usize) -> Result<Option<Vec<Span>>, AllocError>
        ensures { IfOk result (λ found. option_map (λ v. v.items) found
            ≡ spans_past self.now.replica.list doc rev) }
    {
        self.replica.spans_at(doc, rev)
    }

    /// The versions of a document, unsettled operations included, of at most `every` operations
    /// each. An error is out of memory (1). Costs what `Replica::versions` does.
    pub fn versions(&self, doc: u32, every: u32) -> Result<Vec<Version>, AllocError>
        ensures { IfOk result
            (λ found. found.items ≡ versions_of self.now.replica.list doc every) }
    {
        self.replica.versions(doc, every)
    }

    /// What changed in a document, unsettled operations included, since it had so many operations,
    /// as steps over the text that a reader has from then; `None` if it has fewer, or that was too
    /// long ago to be told. An error is out of memory (1). Costs what `Replica::changes` does.
    pub fn changes(&self, doc: u32, since: usize) -> Result<Option<Vec<ChangeStep>>, AllocError>
        ensures { IfOk result (λ found.
            TellsChanges self.now.replica.list self.now.replica.opened doc since found) }
    {
        self.replica.changes(doc, since)
    }

    /// The places after these numbers of visible characters of a document, unsettled operations
    /// included, that stay with one of their neighbours from now on; `None` if one of the numbers
    /// is beyond the end of the text. An error is out of memory (1). Costs what `Replica::anchors`
    /// does.
    pub fn anchors(
        &self,
        doc: u32,
        at: &[u32],
        side: Neighbour,
    ) -> Result<Option<Vec<Lasting>>, AllocError>
        ensures within { IfOk result
            (λ found. is_some found ≡ are_within self.now.replica.list doc at.now) }
        ensures places { IfOk result (λ found. IfSome found
            (λ v. v.items ≡ anchors_of self.now.replica.list doc at.now side)) }
    {
        self.replica.anchors(doc, at, side)
    }

    /// How many visible characters of a document, unsettled operations included, stand before each
    /// of these places, or `None` for a place beside a character that isn't known. An error is out
    /// of memory (1). Costs what `Replica::places` does.
    pub fn places(&self, doc: u32, anchors: &[Lasting]) -> Result<Vec<Option<usize>>, AllocError>
        ensures { IfOk result
            (λ found. found.items ≡ places_of self.now.replica.list doc anchors.now) }
    {
        self.replica.places(doc, anchors)
    }
}
