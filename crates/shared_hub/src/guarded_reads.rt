//! What is read under the lock of a shared hub.
ghost use Rattle.std.specs.Prelude.{◌≡◌, All, IfOk, IfSome, is_some, length};
ghost use Rattle.list_counts.specs.Documents.{all_counted, held_room};
ghost use Rattle.op_model.specs.Machine.{known_ticket};
ghost use Rattle.op_model.specs.Spans.{spans as spans_of};
ghost use Rattle.op_model.specs.Text.{text as text_of, rev as rev_of};
ghost use Rattle.placed_edits.specs.Placed.{asked_at};
ghost use Rattle.replica_core.specs.Changed.{TellsChanges};
ghost use Rattle.replica_core.specs.Places.{anchors_of, are_within, places_of};
ghost use Rattle.replica_core.specs.RefusedAt.{refused_at as refused_at_of};
ghost use Rattle.shared_hub.specs.Peers.{IsCounted, rows_of};
ghost use Rattle.hub_parts.specs.Locked.{IsLocked};
ghost use Rattle.shared_hub.specs.Watching.{HasNoRev, IsWatched};

use crate::connected::{Connected, Peer};
use crate::guarded::Guarded;
use crate::shown::Shown;
use crate::status::Status;
use crate::watched::Watched;
use list_counts::{DocumentCounts, PeerCounts, Room};
use op_model::{Action, ChangeStep, Lasting, Neighbour, Span, Text};
use pass_books::BookNames;
use placed_edits::PlacedAction;
use std::alloc::{AllocError, Global};

impl<J: BookNames> Guarded<J> {
    /// How far it is. Takes no memory. Constant.
    pub(crate) fn status(&self) -> Status
        ensures { result ≡ record {
          applied = length self.now.locked.replica.list;
          settled = self.now.locked.replica.settled;
          has_failed = self.now.locked.failure_told;
          is_stopping = self.now.stopping;
        } }
    {
        Status {
            applied: self.locked.list().len() as u64,
            settled: self.locked.settled() as u64,
            has_failed: self.locked.is_failure_told(),
            is_stopping: self.is_stopping,
        }
    }

    /// Which of several changes a new edit is refused for, counted from 0: with 5 or 7, if
    /// `Locked::edit` comes to it. Takes no memory. Costs what `Locked::refused_at` does.
    pub(crate) fn refused_at(&self, edit: &Action) -> Option<usize>
        ensures { result ≡ refused_at_of self.now.locked.replica.list
            self.now.locked.replica.replica edit.now }
    {
        self.locked.refused_at(edit)
    }

    /// Whether an edit was made before, under its token. Takes no memory. Costs what
    /// `Locked::known` does.
    pub(crate) fn knows(&self, edit: &Action) -> bool
        ensures { result ≡ is_some (known_ticket self.now.locked.replica edit.now) }
    {
        self.locked.known(edit).is_some()
    }

    /// The action by numbers that an edit at places that last asks for. An error is out of memory
    /// (1). Costs what `Locked::asked` does.
    pub(crate) fn asked(&self, alloc: Global, placed: &PlacedAction) -> Result<Action, AllocError>
        ensures { IfOk result (λ action. action
            ≡ asked_at self.now.locked.replica.list placed.now) }
    {
        self.locked.asked(alloc, placed)
    }

    /// How much there is of what there is a limit to, unsettled operations included. Constant.
    pub(crate) fn room_taken(&self) -> Room
        ensures { result ≡ held_room self.now.locked.replica }
    {
        self.locked.room()
    }

    /// What is counted of each document that has operations, unsettled ones included. An error is
    /// out of memory (1). Costs what `Locked::documents` does.
    pub(crate) fn documents(&self) -> Result<Vec<DocumentCounts>, AllocError>
        ensures { IfOk result
            (λ counts. counts.items ≡ all_counted self.now.locked.replica.list) }
    {
        self.locked.documents()
    }

    /// The text of a document, unsettled operations included. An error is out of memory (1). Costs
    /// what `Locked::text` does.
    pub(crate) fn text(&self, doc: u32) -> Result<Shown<Text>, AllocError>
        ensures rev { IfOk result (λ it. it.rev ≡ rev_of self.now.locked.replica.list doc) }
        ensures text { IfOk result (λ it. it.content ≡ text_of self.now.locked.replica.list doc) }
    {
        Ok(Shown {
            rev: self.locked.rev(doc) as u64,
            content: self.locked.text(doc)?,
        })
    }

    /// The text of a document, cut where its marks change. An error is out of memory (1). Costs
    /// what `Locked::spans` does.
    pub(crate) fn spans(&self, doc: u32) -> Result<Shown<Vec<Span>>, AllocError>
        ensures rev { IfOk result (λ it. it.rev ≡ rev_of self.now.locked.replica.list doc) }
        ensures spans { IfOk result
            (λ it. it.content.items ≡ spans_of self.now.locked.replica.list doc) }
    {
        Ok(Shown {
            rev: self.locked.rev(doc) as u64,
            content: self.locked.spans(doc)?,
        })
    }

    /// What changed in a document since it had so many operations; none if it has fewer, or that
    /// was too long ago to be told. An error is out of memory (1). Costs what `Locked::changes`
    /// does.
    pub(crate) fn changes(
        &self,
        doc: u32,
        since: usize,
    ) -> Result<Shown<Option<Vec<ChangeStep>>>, AllocError>
        ensures rev { IfOk result (λ it. it.rev ≡ rev_of self.now.locked.replica.list doc) }
        ensures changes { IfOk result (λ it. TellsChanges self.now.locked.replica.list
            self.now.locked.replica.opened doc since it.content) }
    {
        Ok(Shown {
            rev: self.locked.rev(doc) as u64,
            content: self.locked.changes(doc, since)?,
        })
    }

    /// The places after these numbers of visible characters of a document, that stay with one of
    /// their neighbours; none if one of the numbers is beyond the end of the text. An error is out
    /// of memory (1). Costs what `Locked::anchors` does.
    pub(crate) fn anchors(
        &self,
        doc: u32,
        at: &[u32],
        side: Neighbour,
    ) -> Result<Shown<Option<Vec<Lasting>>>, AllocError>
        ensures rev { IfOk result (λ it. it.rev ≡ rev_of self.now.locked.replica.list doc) }
        ensures within { IfOk result
            (λ it. is_some it.content ≡ are_within self.now.locked.replica.list doc at.now) }
        ensures places { IfOk result (λ it. IfSome it.content
            (λ v. v.items ≡ anchors_of self.now.locked.replica.list doc at.now side)) }
    {
        Ok(Shown {
            rev: self.locked.rev(doc) as u64,
            content: self.locked.anchors(doc, at, side)?,
        })
    }

    /// How many visible characters of a document stand before each of these places, if it is there.
    /// An error is out of memory (1). Costs what `Locked::places` does.
    pub(crate) fn places(
        &self,
        doc: u32,
        anchors: &[Lasting],
    ) -> Result<Shown<Vec<Option<usize>>>, AllocError>
        ensures rev { IfOk result (λ it. it.rev ≡ rev_of self.now.locked.replica.list doc) }
        ensures places { IfOk result
            (λ it. it.content.items ≡ places_of self.now.locked.replica.list doc anchors.now) }
    {
        Ok(Shown {
            rev: self.locked.rev(doc) as u64,
            content: self.locked.places(doc, anchors)?,
        })
    }

    /// What is known of the peers that are connected: a row for each, in the order of their links.
    /// An error is out of memory (1).
    pub(crate) fn peers(
        &self,
        alloc: Global,
        connected: &Connected,
    ) -> Result<Vec<PeerCounts>, AllocError>
        ensures rows { IfOk result (λ peers.
            peers.items ≡ rows_of self.now.locked.replica.list connected.now.peers) }
        ensures counted { IfOk result
            (λ peers. All (IsCounted self.now.locked.replica.list) peers.items) }
    {
        let mut peers = Vec::new(alloc);
        for peer in connected.peers.as_slice() {
            if let Some(Peer { replica, its }) = peer {
                let counts = PeerCounts::of(*replica, its, self.locked.clock());
                peers.push(counts)?;
            }
        }
        Ok(peers)
    }
}

// What a document that is watched has come to.
impl<J: BookNames> Guarded<J> {
    /// What a document has come to for one who has seen it with so many settled operations, or
    /// hasn't seen it (`None`). Takes no memory. Costs what `Locked::settled_rev` does.
    pub(crate) fn watched(&self, doc: u32, seen: Option<u64>) -> Watched
        ensures kept { IsLocked self.now.locked }
        ensures watched { IsWatched result doc seen self.now.locked }
    {
        self.locked.kept();
        let rev = self.locked.settled_rev(doc) as u64;
        if let Some(seen) = seen
            && rev <= seen
        {
            return self.without_more();
        }
        Watched::Rev(rev)
    }

    /// What a document without more settled operations than were seen has come to.
    fn without_more(&self) -> Watched
        ensures { HasNoRev result }
    {
        if self.locked.is_failure_told() || self.turns.has_ended {
            Watched::Failed
        } else {
            Watched::Nothing
        }
    }
}
