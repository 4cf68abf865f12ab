//! What a hub tells of itself.
ghost use Rattle.std.specs.Prelude.{◌≡◌, IfOk, IfSome, is_some, option_map};
ghost use Rattle.list_counts.specs.Documents.{all_counted, held_room};
ghost use Rattle.list_counts.specs.Versions.{versions as versions_of};
ghost use Rattle.op_model.specs.Causality.{clock_of};
ghost use Rattle.op_model.specs.Machine.{known_ticket};
ghost use Rattle.op_model.specs.Spans.{spans as spans_of};
ghost use Rattle.op_model.specs.Text.{text as text_of, rev as rev_of};
ghost use Rattle.placed_edits.specs.Placed.{asked_at};
ghost use Rattle.replica_core.specs.Held.{IsSound};
ghost use Rattle.replica_core.specs.Changed.{TellsChanges};
ghost use Rattle.replica_core.specs.Past.{spans_past, text_past};
ghost use Rattle.replica_core.specs.Places.{anchors_of, are_within, places_of};
ghost use Rattle.replica_core.specs.RefusedAt.{refused_at as refused_at_of};

use crate::hub::Hub;
use disk_trait::Disk;
use list_counts::{DocumentCounts, Room, Version};
use op_ids::{Clock, ReplicaId};
use op_model::{Action, ChangeStep, Lasting, Neighbour, Span, Text};
use placed_edits::PlacedAction;
use replica_core::Ticket;
use run_list::RunSlice;
use std::alloc::{AllocError, Global};

impl<D: Disk> Hub<D> {
    /// The name of the replica.
    pub fn replica(&self) -> ReplicaId
        ensures { result ≡ self.now.replica.replica }
    {
        self.locked.replica()
    }

    /// The operations, in the order of application. The list is causally closed, replaying the kept
    /// steps gives it, and what is acknowledged and told is settled.
    pub fn list(&self) -> RunSlice<'_>
        ensures list { result ≡ self.now.replica.list }
        ensures sound { IsSound self.now.replica }
    {
        self.locked.list()
    }

    /// How many operations of each replica the list has.
    pub fn clock(&self) -> &Clock
        ensures { result.now ≡ clock_of self.now.replica.list }
    {
        self.locked.clock()
    }

    /// How many operations, from the beginning of the list, are settled.
    pub fn settled(&self) -> usize
        ensures { result ≡ self.now.replica.settled }
    {
        self.locked.settled()
    }

    /// The greatest number of operations that an edit answered as settled needed.
    pub fn acked(&self) -> usize
        ensures { result ≡ self.now.replica.acked }
    {
        self.locked.acked()
    }

    /// The greatest number of operations that a telling needed.
    pub fn told(&self) -> usize
        ensures { result ≡ self.now.replica.told }
    {
        self.locked.told()
    }

    /// Whether the device failed, so that the store must be opened again. Takes no memory.
    pub fn has_failed(&self) -> bool
        ensures { result ≡ self.now.store.failed }
    {
        self.flusher.has_failed()
    }

    /// The ticket that an edit had when it was made, if it has a token under which one was made.
    /// Takes no memory. Costs what `Replica::known` does.
    pub fn known(&self, edit: &Action) -> Option<Ticket>
        ensures { result ≡ known_ticket self.now.replica edit.now }
    {
        self.locked.known(edit)
    }

    /// Which of several changes a new edit is refused for, counted from 0: with 5 or 7, if `edit`
    /// comes to it. Takes no memory. Costs what `Replica::refused_at` does.
    pub fn refused_at(&self, edit: &Action) -> Option<usize>
        ensures { result
            ≡ refused_at_of self.now.replica.list self.now.replica.replica edit.now }
    {
        self.locked.refused_at(edit)
    }

    /// How many operations a document has. Costs what `Replica::rev` does.
    pub fn rev(&self, doc: u32) -> usize
        ensures { result ≡ rev_of self.now.replica.list doc }
    {
        self.locked.rev(doc)
    }

    /// How much there is of what there is a limit to, unsettled operations included. Constant.
    pub fn room(&self) -> Room
        ensures { result ≡ held_room self.now.replica }
    {
        self.locked.room()
    }

    /// What is counted of each document that has operations, unsettled ones included, in rising
    /// order of their numbers. An error is out of memory (1). Costs what `Replica::documents` does.
    pub fn documents(&self) -> Result<Vec<DocumentCounts>, AllocError>
        ensures { IfOk result (λ counts. counts.items ≡ all_counted self.now.replica.list) }
    {
        self.locked.documents()
    }

    /// The text of a document, unsettled operations included. An error is out of memory (1). Costs
    /// what `Replica::text` does.
    pub fn text(&self, doc: u32) -> Result<Text, AllocError>
        ensures { IfOk result (λ seen. seen ≡ text_of self.now.replica.list doc) }
    {
        self.locked.text(doc)
    }

    /// The text of a document, cut where the marks change. An error is out of memory (1). Costs
    /// what `Replica::spans` does.
    pub fn spans(&self, doc: u32) -> Result<Vec<Span>, AllocError>
        ensures { IfOk result (λ found. found.items ≡ spans_of self.now.replica.list doc) }
    {
        self.locked.spans(doc)
    }

    /// The text of a document as it was when it had `rev` operations, the first ones in this list.
    /// `None` if it has fewer. An error is out of memory (1). Costs what `Replica::text_at` does.
    pub fn text_at(&self, doc: u32, rev: usize) -> Result<Option<Text>, AllocError>
        ensures { IfOk result (λ found. found ≡ text_past self.now.replica.list doc rev) }
    {
        self.locked.text_at(doc, rev)
    }

    /// The spans of a document as it was likewise. Costs what `Replica::spans_at` does.
    pub fn spans_at(&self, doc: u32, rev: usize) -> Result<Option<Vec<Span>>, AllocError>
        ensures { IfOk result (λ found. option_map (λ v. v.items) found
            ≡ spans_past self.now.replica.list doc rev) }
    {
        self.locked.spans_at(doc, rev)
    }

    /// The versions of a document, unsettled operations included, of at most `every` operations
    /// each. An error is out of memory (1). Costs what `Replica::versions` does.
    pub fn versions(&self, doc: u32, every: u32) -> Result<Vec<Version>, AllocError>
        ensures { IfOk result
            (λ found. found.items ≡ versions_of self.now.replica.list doc every) }
    {
        self.locked.versions(doc, every)
    }

    /// What changed in a document, unsettled operations included, since it had so many operations,
    /// as steps over the text that a reader has from then; `None` if it has fewer, or that was too
    /// long ago to be told. An error is out of memory (1). Costs what `Replica::changes` does.
    pub fn changes(&self, doc: u32, since: usize) -> Result<Option<Vec<ChangeStep>>, AllocError>
        ensures { IfOk result (λ found.
            TellsChanges self.now.replica.list self.now.replica.opened doc since found) }
    {
        self.locked.changes(doc, since)
    }

    /// The places after these numbers of visible characters of a document, unsettled operations
    /// included, that stay with one of their neighbours from now on; `None` if one of the numbers
    /// is beyond the end of the text. An error is out of memory (1). Costs what `Replica::anchors`
    /// does.
    pub fn anchors(
        &self,
        doc: u32,
        at: &[u32],
        side: Neighbour,
    ) -> Result<Option<Vec<Lasting>>, AllocError>
        ensures within { IfOk result
            (λ found. is_some found ≡ are_within self.now.replica.list doc at.now) }
        ensures places { IfOk result (λ found. IfSome found
            (λ v. v.items ≡ anchors_of self.now.replica.list doc at.now side)) }
    {
        self.locked.anchors(doc, at, side)
    }

    /// How many visible characters of a document, unsettled operations included, stand before each
    /// of these places, or `None` for a place beside a character that isn't known. An error is out
    /// of memory (1). Costs what `Replica::places` does.
    pub fn places(&self, doc: u32, anchors: &[Lasting]) -> Result<Vec<Option<usize>>, AllocError>
        ensures { IfOk result
            (λ found. found.items ≡ places_of self.now.replica.list doc anchors.now) }
    {
        self.locked.places(doc, anchors)
    }

    /// The disk. What a commit under way has written stays there.
    pub fn into_disk(self) -> D
        ensures { result ≡ self.store.disk }
    {
        let Hub { flusher, .. } = self;
        flusher.into_disk()
    }

    /// The action by numbers that an edit asks for: its places that last are where their characters
    /// are, unsettled operations included, moved by the changes of the edit before them. An error
    /// is out of memory (1). Costs what `Locked::asked` does.
    pub fn asked(&self, alloc: Global, placed: &PlacedAction) -> Result<Action, AllocError>
        ensures { IfOk result (λ action. action
            ≡ asked_at self.now.replica.list placed.now) }
    {
        self.locked.asked(alloc, placed)
    }
}
