//! One peer's operations.
ghost use Rattle.std.specs.Prelude.{◌≡◌, ◌≢◌, ◌↔◌, ◌≤◌, ◌<◌, if◌then◌else◌};
ghost use Rattle.std.specs.Prelude.{[], length, Contains};
ghost use Rattle.std.specs.Prelude.{IsTrue, IfOk, IfErr, OnOk, OnErr};
ghost use Rattle.fixed_numbers.specs.declared.limits.TheConstants.{MAX_LISTED};
ghost use Rattle.op_model.specs.Held.{opened_with, settled_list};
ghost use Rattle.op_model.specs.Held.{with_acked, with_settled, with_told};
ghost use Rattle.op_model.specs.Causality.{clock_of, IsCausallyClosed};
ghost use Rattle.op_model.specs.Records.{stream_length};
ghost use Rattle.op_model.specs.Replay.{reached};
ghost use Rattle.op_model.specs.Spans.{spans as spans_of};
ghost use Rattle.op_model.specs.Telling.{reach, untold as untold_of};
ghost use Rattle.op_model.specs.Text.{text as text_of, rev as rev_of};
ghost use Rattle.replica_core.specs.Held.{IsSound};
ghost use Rattle.replica_core.specs.Steps.{places_left};
ghost use Rattle.span_flatten.specs.Listing.{listed};

use crate::counting::clock_of_front;
use crate::docs::{count, find};
use crate::index::Index;
use crate::knowledge::Knowledge;
use crate::log::Log;
use crate::opening::counted;
use crate::refusal::Refusal;
use crate::repeats::Repeats;
use crate::step::Step;
use crate::steps::Steps;
use crate::telling::untold;
use crate::ticket::Ticket;
use doc_core::Doc;
use edit_tokens::Tokens;
use op_ids::{Clock, ReplicaId};
use op_model::{Op, Span, Text};
use run_list::{RunList, RunSlice};
use std::alloc::{AllocError, Global};
use std::marker::Model;

/// One peer's list of operations, with its clock, how much of it is settled, acknowledged and told,
/// and the steps that made it since it was opened. Contracts see what it holds.
#[derive(Debug, Drop)]
pub struct Replica {
    pub(crate) id: ReplicaId,
    pub(crate) log: Log,
    /// How many operations of each replica the list has.
    pub(crate) clock: Clock,
    /// Where the replica's own edits that had a token stand in the list.
    pub(crate) tokens: Tokens,
    /// Which operations of the list remove what was removed before.
    pub(crate) repeats: Repeats,
    /// The steps since opening.
    pub(crate) steps: Steps,
    /// The length of the list at opening.
    pub(crate) opened: usize,
    pub(crate) settled: usize,
    pub(crate) acked: usize,
    pub(crate) told: usize,
}

impl Model for Replica {
    ghost use Rattle.op_model.specs.Held.{ReplicaHeld};
    ghost use Rattle.replica_core.specs.Fields.{held_of, AreFields};

    ghost Value = { ReplicaHeld };

    ghost view = { λ r. held_of r.id r.log.list r.opened r.settled r.acked r.told r.steps };

    ghost invariant = { λ r. AreFields
        (held_of r.id r.log.list r.opened r.settled r.acked r.told r.steps)
        r.clock r.log.docs.items r.log.index r.tokens r.repeats };
}

impl Replica {
    /// The replica of an empty store. Takes no memory.
    pub fn new(alloc: Global, id: ReplicaId) -> Replica
        ensures { result ≡ opened_with id [] }
    {
        Replica {
            id,
            log: Log {
                list: RunList::new(alloc),
                docs: Vec::new(alloc),
                index: Index::new(alloc),
            },
            clock: Clock::new(alloc),
            tokens: Tokens::new(alloc),
            repeats: Repeats::new(alloc, 0),
            steps: Steps::new(),
            opened: 0,
            settled: 0,
            acked: 0,
            told: 0,
        }
    }

    /// The replica as it is after opening a store with this list: all of it is settled.
    /// `BadOperation` (47) exactly where the list isn't causally closed; `Memory` (1) says nothing
    /// of that. One pass over the list, which makes each operation of the one before it, or of its
    /// record where it begins a run, and lets that go. An operation takes a few steps for clocks, a
    /// search by halves for its document, two for each character that it names (one among its
    /// replica's operations, with one at each step, where that doesn't edit alone), and for an
    /// insert a step for each greater id that follows its origin. An own edit with a token takes 32
    /// bytes, which are sorted at the end, when as much again is taken for a while. For each
    /// character 40 bytes, of which 20 are given back before that.
    pub fn from_list(alloc: Global, id: ReplicaId, list: RunList) -> Result<Replica, Refusal>
        ensures opened { IfOk result (λ r. r ≡ opened_with id list) }
        ensures closed { OnOk result (IsCausallyClosed list) }
        ensures bad { IfErr result (λ e. e ≢ Refusal.Memory
            → (e ≡ Refusal.BadOperation) × (IsCausallyClosed list → ⊥)) }
    {
        let found = counted(alloc, id, &list.as_slice())?;
        let opened = list.len();
        Ok(Replica {
            id,
            log: Log {
                list,
                docs: found.docs,
                index: found.index,
            },
            clock: found.clock,
            tokens: found.tokens,
            repeats: Repeats::new(alloc, opened),
            steps: Steps::new(),
            opened,
            settled: opened,
            acked: opened,
            told: opened,
        })
    }

    /// The name of the replica.
    pub fn replica(&self) -> ReplicaId
        ensures { result ≡ self.now.replica }
    {
        self.id
    }

    /// The operations, in the order of application. The list is causally closed, replaying the kept
    /// steps gives it, and the numbers are in order, as all that a replica holds.
    pub fn list(&self) -> RunSlice<'_>
        ensures list { result ≡ self.now.list }
        ensures sound { IsSound self.now }
    {
        self.log.list.as_slice()
    }

    /// How many bytes the records of the operations take, one by one. Constant.
    pub fn records_length(&self) -> u64
        ensures { result ≡ stream_length self.now.list }
    {
        self.log.index.stream
    }

    /// How many operations of each replica the list has.
    pub fn clock(&self) -> &Clock
        ensures { result.now ≡ clock_of self.now.list }
    {
        &self.clock
    }

    /// How many operations, from the beginning of the list, are settled.
    pub fn settled(&self) -> usize
        ensures { result ≡ self.now.settled }
    {
        self.settled
    }

    /// The greatest number of operations that an edit answered as settled needed.
    pub fn acked(&self) -> usize
        ensures { result ≡ self.now.acked }
    {
        self.acked
    }

    /// The greatest number of operations that a telling needed.
    pub fn told(&self) -> usize
        ensures { result ≡ self.now.told }
    {
        self.told
    }

    /// How many operations a document has. Takes no memory. A search by halves for the document.
    pub fn rev(&self, doc: u32) -> usize
        ensures { result ≡ rev_of self.now.list doc }
    {
        let empty = Doc::new(self.log.list.allocator(), doc);
        count(find(&self.log.docs, &empty), &self.log.list.as_slice())
    }

    /// The text of a document, unsettled operations included. An error is out of memory (1). A
    /// search by halves for the document, and linear in it.
    pub fn text(&self, doc: u32) -> Result<Text, AllocError>
        ensures { IfOk result (λ seen. seen ≡ text_of self.now.list doc) }
    {
        let empty = Doc::new(self.log.list.allocator(), doc);
        find(&self.log.docs, &empty).text()
    }

    /// The text of a document, cut where the marks change. An error is out of memory (1). An
    /// answer lists at most 1,048,576 comment ids, one counted in each span that lists it: beyond
    /// it is 1. A search by halves for the document, and what `Doc::spans` costs.
    pub fn spans(&self, doc: u32) -> Result<Vec<Span>, AllocError>
        ensures spans { IfOk result (λ found. found.items ≡ spans_of self.now.list doc) }
        ensures few { IfOk result (λ found. listed found.items ≤ MAX_LISTED) }
    {
        let empty = Doc::new(self.log.list.allocator(), doc);
        Ok(find(&self.log.docs, &empty).spans()?)
    }

    /// Settles the first n operations: a number that isn't below the settled one, and a length that
    /// the list had at opening or after an edit or a merge. One of the two places behind the last
    /// edit or merge is left for it. Takes no memory.
    pub fn settle(&mut self, n: usize)
        requires rising { self.old.settled ≤ n }
        requires within { n ≤ length self.old.list }
        requires reached { Contains (reached self.old.opened self.old.steps) n }
        requires place { 0 < places_left self.old.steps }
        ensures { self.new ≡ with_settled self.old n }
    {
        self.steps.push(Step::Settlement { settled: n });
        self.settled = n;
    }

    /// Whether the operations of a ticket's edit are settled. Then they are acknowledged; otherwise
    /// nothing changes. Takes no memory.
    pub fn ack(&mut self, ticket: Ticket) -> bool
        ensures settled { IsTrue result ↔ (ticket.end ≤ self.old.settled) }
        ensures acked { self.new
            ≡ (if result then with_acked self.old ticket.end else self.old) }
    {
        if ticket.end > self.settled {
            return false;
        }
        self.acked = self.acked.max(ticket.end);
        true
    }

    /// The first settled operations, at most 64 in the order of the list, that a clock doesn't
    /// count. They count as told. An error is out of memory (1), and changes nothing. For each
    /// that is told a search by halves among the operations of each replica, and what
    /// `RunSlice::get` costs.
    pub fn tell(&mut self, clock: &Clock) -> Result<Vec<Op>, Refusal>
        ensures told { IfOk result (λ ops.
            ops.items ≡ untold_of clock.now (settled_list self.old)) }
        ensures raised { OnOk result (self.new
            ≡ with_told self.old (reach clock.now (settled_list self.old))) }
        ensures memory { IfErr result (λ e. e ≡ Refusal.Memory) }
        ensures err { OnErr result (self.new ≡ self.old) }
    {
        let alloc = self.log.list.allocator();
        let list = self.log.list.as_slice();
        let known = Knowledge {
            replica: self.id,
            clock: &self.clock,
            index: &self.log.index,
        };
        let (ops, reached) = untold(alloc, clock, &list, &known, self.settled)?;
        self.told = self.told.max(reached);
        Ok(ops)
    }

    /// How many operations of each replica are settled. All settled ones count as told. An error is
    /// out of memory (1), and changes nothing. A search by halves for each replica.
    pub fn have(&mut self) -> Result<Clock, Refusal>
        ensures clock { IfOk result (λ c. c ≡ clock_of (settled_list self.old)) }
        ensures raised { OnOk result (self.new ≡ with_told self.old self.old.settled) }
        ensures memory { IfErr result (λ e. e ≡ Refusal.Memory) }
        ensures err { OnErr result (self.new ≡ self.old) }
    {
        let alloc = self.log.list.allocator();
        let list = self.log.list.as_slice();
        let index = &self.log.index;
        let clock = clock_of_front(alloc, &list, &self.clock, index, self.settled)?;
        self.told = self.told.max(self.settled);
        Ok(clock)
    }
}
