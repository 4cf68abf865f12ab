//! A replica makes edits.
ghost use Rattle.std.specs.Prelude.{◌≡◌, IfOk, IfErr, OnOk, OnErr};
ghost use Rattle.op_model.specs.Machine.{after_edit, edit_alone, new_edit_alone, IsRefusal, ticket, refused};
ghost use Rattle.op_model.specs.Held.{with_edit};
ghost use Rattle.replica_core.specs.Decided.{IsDecided, IsPrepared};
ghost use Rattle.replica_core.specs.Refusal.{number_of};
ghost use Rattle.replica_core.specs.RefusedAt.{refused_at as refused_at_of};

use crate::decided::Decided;
use crate::deciding::action_length;
use crate::docs;
use crate::knowledge::Knowledge;
use crate::prepared::Prepared;
use crate::preparing::prepared;
use crate::refusal::Refusal;
use crate::replica::Replica;
use crate::several::several_length;
use crate::step::Step;
use crate::ticket::Ticket;
use doc_core::{Doc, SequenceError};
use ghost_lists::Seen;
use op_model::{Action, Edit};

impl Replica {
    /// Makes the operations of a session's edit and puts them behind the list. An edit that was
    /// made before, under its token, has the ticket that it had then, and changes nothing. Another
    /// one is refused by the first cause, in this order: `Stale` (6), `Range` (5), `Limit` (7),
    /// `Steps` (10); `Memory` (1) stands only in place of success. A refused edit changes nothing.
    /// Costs what `known`, `decide_edit` and `put_edit` do.
    pub fn edit(&mut self, session: u64, edit: &Action) -> Result<Ticket, Refusal>
        ensures made { IfOk result (λ t.
            self.new ≡ after_edit t self.old session edit.now) }
        ensures ticket { IfOk result (λ t.
            edit_alone self.old edit.now ≡ ticket t) }
        ensures refused { IfErr result (λ e.
            IsRefusal (number_of e) (edit_alone self.old edit.now)) }
        ensures err { OnErr result (self.new ≡ self.old) }
    {
        if let Some(ticket) = self.known(edit) {
            return Ok(ticket);
        }
        let decided = self.decide_edit(edit)?;
        self.put_edit(session, edit, decided)
    }

    /// For how many bytes of a new edit there has to be room among those that wait for a commit,
    /// and the place of its document, or why it is refused, by the first cause: `Stale` (6), then
    /// `Range` (5) and `Limit` (7) of its changes in turn, `Steps` (10). Takes no memory. A few
    /// steps for clocks and for each change, a search by halves for the document, and for one
    /// insert alone at its beginning what `Doc::origin` costs.
    pub fn decide_edit(&self, edit: &Action) -> Result<Decided, Refusal>
        ensures decided { IfOk result (IsDecided self.now edit.now) }
        ensures refused { IfErr result (λ e.
            new_edit_alone self.now edit.now ≡ refused (number_of e)) }
    {
        let log = &self.log;
        let ops = log.list.as_slice();
        let empty = Doc::new(log.list.allocator(), edit.first().doc);
        let place = docs::place(&log.docs, edit.first().doc);
        let doc = docs::at(&log.docs, place, &empty);
        let has_place = docs::has_room(&log.docs, place);
        let known = Knowledge {
            replica: self.id,
            clock: &self.clock,
            index: &log.index,
        };
        let bytes = action_length(&ops, &known, doc, has_place, edit)?;
        if !self.steps.has_places() {
            return Err(Refusal::Steps);
        }
        Ok(Decided { bytes, place })
    }

    /// Which of several changes a new edit is refused for, counted from 0: with `Range` (5) or
    /// `Limit` (7), as `decide_edit` tells it. Takes no memory. A few steps for clocks and for each
    /// change, and a search by halves for the document.
    pub fn refused_at(&self, edit: &Action) -> Option<usize>
        ensures { result ≡ refused_at_of self.now.list self.now.replica edit.now }
    {
        if edit.others().is_empty() {
            return None;
        }
        let log = &self.log;
        let ops = log.list.as_slice();
        let empty = Doc::new(log.list.allocator(), edit.first().doc);
        let place = docs::place(&log.docs, edit.first().doc);
        let doc = docs::at(&log.docs, place, &empty);
        let known = Knowledge {
            replica: self.id,
            clock: &self.clock,
            index: &log.index,
        };
        match several_length(&ops, &known, doc, docs::has_room(&log.docs, place), edit) {
            Ok(_) => None,
            Err(refused) => refused.place(),
        }
    }

    /// Makes the operations of a session's new edit that nothing refuses, as `decide_edit` tells,
    /// and puts them behind the list. An error is out of memory (1), and changes nothing. Costs
    /// what `prepare` and `put_prepared` do.
    pub fn put_edit(
        &mut self,
        session: u64,
        edit: &Action,
        decided: Decided,
    ) -> Result<Ticket, Refusal>
        requires { IsDecided self.old edit.now decided }
        ensures made { OnOk result (self.new ≡ with_edit self.old session edit.now) }
        ensures ticket { IfOk result (λ t.
            new_edit_alone self.old edit.now ≡ ticket t) }
        ensures memory { IfErr result (λ e. e ≡ Refusal.Memory) }
        ensures err { OnErr result (self.new ≡ self.old) }
    {
        let prepared = self.prepare(edit, decided)?;
        self.put_prepared(session, edit, decided, prepared)
    }

    /// Makes the operations of a new edit that nothing refuses, as `decide_edit` tells, and what
    /// the clock and the edit's place are with them; the replica stays as it is. An error is out of
    /// memory (1). A few steps for clocks, and what the document takes to make them, which isn't
    /// searched again; several changes are made on a copy of it, which is linear in the document.
    pub fn prepare(&self, edit: &Action, decided: Decided) -> Result<Prepared, Refusal>
        requires { IsDecided self.now edit.now decided }
        ensures prepared { IfOk result (IsPrepared self.now edit.now) }
        ensures memory { IfErr result (λ e. e ≡ Refusal.Memory) }
    {
        let log = &self.log;
        let alloc = log.list.allocator();
        let ops = log.list.as_slice();
        let empty = Doc::new(alloc, edit.first().doc);
        let doc = docs::at(&log.docs, decided.place, &empty);
        let known = Knowledge {
            replica: self.id,
            clock: &self.clock,
            index: &log.index,
        };
        prepared(alloc, &ops, &known, doc, edit)
    }

    /// Puts the operations of a session's new edit behind the list, as `prepare` made them of this
    /// very replica. An error is out of memory (1), and changes nothing. What the document takes
    /// for them, which isn't searched again. With a token a search by halves and one in an ordered
    /// map too, and some 80 bytes of memory.
    pub fn put_prepared(
        &mut self,
        session: u64,
        edit: &Action,
        decided: Decided,
        prepared: Prepared,
    ) -> Result<Ticket, Refusal>
        requires decided { IsDecided self.old edit.now decided }
        requires prepared { IsPrepared self.old edit.now prepared }
        ensures made { OnOk result (self.new ≡ with_edit self.old session edit.now) }
        ensures ticket { IfOk result (λ t. new_edit_alone self.old edit.now ≡ ticket t) }
        ensures memory { IfErr result (λ e. e ≡ Refusal.Memory) }
        ensures err { OnErr result (self.new ≡ self.old) }
    {
        let Prepared {
            edited,
            clock,
            place,
        } = prepared;
        let Edit { doc, token, .. } = edit.first();
        let first = self.log.list.len();
        let count = edited.as_slice().len();
        let before = self.tokens.keep(*token, place)?;
        match self.log.append_edited(edited, self.id, *doc, decided.place) {
            Ok(()) => {}
            Err(SequenceError::Memory) => {
                // A refused edit may be sent again, and is made then.
                self.tokens.take_back(*token, before);
                return Err(Refusal::Memory);
            }
            Err(SequenceError::UnknownId) => unreachable!(),
        }
        self.clock = clock;
        self.steps.push(Step::Edit {
            session,
            edit: Seen::of(edit),
            first,
            count,
        });
        Ok(Ticket {
            end: place.end as usize,
            rev: place.rev as usize,
            known: false,
        })
    }
}
