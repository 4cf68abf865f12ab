//! What is read of a shared hub.
ghost use Rattle.std.specs.Prelude.{◌≡◌, IfOk, IfSome, is_some, length, All};
ghost use Rattle.list_counts.specs.Documents.{all_counted, held_room};
ghost use Rattle.op_model.specs.Spans.{spans as spans_of};
ghost use Rattle.op_model.specs.Text.{text as text_of, rev as rev_of};
ghost use Rattle.replica_core.specs.Changed.{TellsChanges};
ghost use Rattle.replica_core.specs.Places.{anchors_of, are_within, places_of};
ghost use Rattle.shared_hub.specs.Shared.{MomentOf};
ghost use Rattle.shared_hub.specs.Peers.{IsCounted};

use crate::connected::Peer;
use crate::passes::Pass;
use crate::shared::Shared;
use crate::shown::Shown;
use crate::status::Status;
use list_counts::{DocumentCounts, PeerCounts, Room};
use op_ids::{Clock, ReplicaId};
use op_model::{ChangeStep, Lasting, Neighbour, Span, Text};
use pass_books::BookNames;
use std::alloc::{AllocError, Global};
use std::sync::Wait;

impl<J: BookNames> Shared<J> {
    /// How far the hub is. Takes no memory. Constant.
    pub fn status<R: Wait>(&self, rt: &R, pass: &mut Pass<J>) -> Status
        ensures same { pass.new ≡ pass.old }
        ensures moment { MomentOf pass.old
            (λ l. (result.applied ≡ length l.replica.list)
            × (result.settled ≡ l.replica.settled) × (result.has_failed ≡ l.failure_told)) }
    {
        let mut guard = self.guarded.lock(rt);
        guard.audit(pass);
        guard.status()
    }

    /// How much there is of what there is a limit to, unsettled operations included. Takes no
    /// memory. Constant.
    pub fn room_taken<R: Wait>(&self, rt: &R, pass: &mut Pass<J>) -> Room
        ensures same { pass.new ≡ pass.old }
        ensures moment { MomentOf pass.old (λ l. result ≡ held_room l.replica) }
    {
        let mut guard = self.guarded.lock(rt);
        guard.audit(pass);
        guard.room_taken()
    }

    /// What is counted of each document that has operations, unsettled ones included, in rising
    /// order of their numbers. An error is out of memory (1). Costs what `Locked::documents` does.
    pub fn documents<R: Wait>(
        &self,
        rt: &R,
        pass: &mut Pass<J>,
    ) -> Result<Vec<DocumentCounts>, AllocError>
        ensures same { pass.new ≡ pass.old }
        ensures moment { IfOk result (λ counts. MomentOf pass.old
            (λ l. counts.items ≡ all_counted l.replica.list)) }
    {
        let mut guard = self.guarded.lock(rt);
        guard.audit(pass);
        guard.documents()
    }

    /// The text of a document, unsettled operations included. An error is out of memory (1). Costs
    /// what `Locked::text` does.
    pub fn text<R: Wait>(
        &self,
        rt: &R,
        pass: &mut Pass<J>,
        doc: u32,
    ) -> Result<Shown<Text>, AllocError>
        ensures same { pass.new ≡ pass.old }
        ensures moment { IfOk result (λ it. MomentOf pass.old
            (λ l. (it.rev ≡ rev_of l.replica.list doc)
            × (it.content ≡ text_of l.replica.list doc))) }
    {
        let mut guard = self.guarded.lock(rt);
        guard.audit(pass);
        guard.text(doc)
    }

    /// The text of a document, cut where its marks change. An error is out of memory (1). Costs
    /// what `Locked::spans` does.
    pub fn spans<R: Wait>(
        &self,
        rt: &R,
        pass: &mut Pass<J>,
        doc: u32,
    ) -> Result<Shown<Vec<Span>>, AllocError>
        ensures same { pass.new ≡ pass.old }
        ensures moment { IfOk result (λ it. MomentOf pass.old
            (λ l. (it.rev ≡ rev_of l.replica.list doc)
            × (it.content.items ≡ spans_of l.replica.list doc))) }
    {
        let mut guard = self.guarded.lock(rt);
        guard.audit(pass);
        guard.spans(doc)
    }

    /// What changed in a document since it had so many operations; none if it has fewer, or that
    /// was too long ago to be told. An error is out of memory (1). Costs what `Locked::changes`
    /// does.
    pub fn changes<R: Wait>(
        &self,
        rt: &R,
        pass: &mut Pass<J>,
        doc: u32,
        since: usize,
    ) -> Result<Shown<Option<Vec<ChangeStep>>>, AllocError>
        ensures same { pass.new ≡ pass.old }
        ensures moment { IfOk result (λ it. MomentOf pass.old
            (λ l. (it.rev ≡ rev_of l.replica.list doc)
            × TellsChanges l.replica.list l.replica.opened doc since it.content)) }
    {
        let mut guard = self.guarded.lock(rt);
        guard.audit(pass);
        guard.changes(doc, since)
    }

    /// The places after these numbers of visible characters of a document, that stay with one of
    /// their neighbours; none if one of the numbers is beyond the end of the text. An error is out
    /// of memory (1). Costs what `Locked::anchors` does.
    pub fn anchors<R: Wait>(
        &self,
        rt: &R,
        pass: &mut Pass<J>,
        doc: u32,
        at: &[u32],
        side: Neighbour,
    ) -> Result<Shown<Option<Vec<Lasting>>>, AllocError>
        ensures same { pass.new ≡ pass.old }
        ensures moment { IfOk result (λ it. MomentOf pass.old
            (λ l. (it.rev ≡ rev_of l.replica.list doc)
            × (is_some it.content ≡ are_within l.replica.list doc at.now)
            × IfSome it.content (λ v. v.items ≡ anchors_of l.replica.list doc at.now side))) }
    {
        let mut guard = self.guarded.lock(rt);
        guard.audit(pass);
        guard.anchors(doc, at, side)
    }

    /// How many visible characters of a document stand before each of these places, if it is there.
    /// An error is out of memory (1). Costs what `Locked::places` does.
    pub fn places<R: Wait>(
        &self,
        rt: &R,
        pass: &mut Pass<J>,
        doc: u32,
        anchors: &[Lasting],
    ) -> Result<Shown<Vec<Option<usize>>>, AllocError>
        ensures same { pass.new ≡ pass.old }
        ensures moment { IfOk result (λ it. MomentOf pass.old
            (λ l. (it.rev ≡ rev_of l.replica.list doc)
            × (it.content.items ≡ places_of l.replica.list doc anchors.now))) }
    {
        let mut guard = self.guarded.lock(rt);
        guard.audit(pass);
        guard.places(doc, anchors)
    }
}

// Who is connected.
impl<J: BookNames> Shared<J> {
    /// Notes what the peer of the link of this number has said that it has.
    pub fn note_peer<R: Wait>(&self, rt: &R, link: usize, replica: ReplicaId, its: Clock) {
        self.connected.lock(rt).note(link, Peer { replica, its });
    }

    /// Forgets the peer of the link of this number, which has ended.
    pub fn forget_peer<R: Wait>(&self, rt: &R, link: usize) {
        self.connected.lock(rt).forget(link);
    }

    /// Counts a session that begins.
    pub fn note_session<R: Wait>(&self, rt: &R) {
        let mut connected = self.connected.lock(rt);
        connected.sessions = connected.sessions.saturating_add(1);
    }

    /// Counts a session that has ended.
    pub fn forget_session<R: Wait>(&self, rt: &R) {
        let mut connected = self.connected.lock(rt);
        connected.sessions = connected.sessions.saturating_sub(1);
    }

    /// How many sessions have begun and not ended.
    pub fn sessions<R: Wait>(&self, rt: &R) -> u64 {
        self.connected.lock(rt).sessions
    }

    /// What is known of the peers that are linked and have said what they have: how many operations
    /// each has said that it has, and how many of the list aren't among them. An error is out of
    /// memory (1). At most 256 steps a peer.
    pub fn peers<R: Wait>(
        &self,
        rt: &R,
        alloc: Global,
        pass: &mut Pass<J>,
    ) -> Result<Vec<PeerCounts>, AllocError>
        ensures same { pass.new ≡ pass.old }
        ensures moment { IfOk result (λ peers. MomentOf pass.old
            (λ l. All (IsCounted l.replica.list) peers.items)) }
    {
        let mut guard = self.guarded.lock(rt);
        guard.audit(pass);
        let connected = self.connected.lock(rt);
        guard.peers(alloc, &connected)
    }
}
