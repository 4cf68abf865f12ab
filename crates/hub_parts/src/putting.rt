//! The operations of an edit or a merge, put into what waits and behind the list.
ghost use Rattle.std.specs.Prelude.{◌≡◌, true, IfOk, IfErr, OnOk, OnErr};
ghost use Rattle.op_model.specs.Held.{with_edit, with_merge};
ghost use Rattle.op_model.specs.Machine.{edit_length, has_record_room, new_edit_alone, ticket};
ghost use Rattle.op_model.specs.Records.{record_length};
ghost use Rattle.replica_core.specs.Decided.{IsDecided};
ghost use Rattle.replica_core.specs.Merging.{CanMerge};
ghost use Rattle.replica_core.specs.declared.refusal.Refusal.TheVariants as Refusal;
ghost use Rattle.hub_parts.specs.Locked.{state_of};

use crate::locked::Locked;
use crate::waiting::put_made;
use change_codec::{every_op_has_a_spelling, put_op};
use op_model::{Action, Op};
use replica_core::{Decided, Refusal, Ticket};

impl Locked {
    /// Makes the operations of a new edit that nothing refuses, and for whose records there is
    /// room. An error is out of memory (1), and changes nothing.
    pub(crate) fn put_edit(
        &mut self,
        session: u64,
        edit: &Action,
        decided: Decided,
    ) -> Result<Ticket, Refusal>
        requires decided { IsDecided self.old.replica edit.now decided }
        requires room { has_record_room (state_of self.old)
            (edit_length self.old.replica edit.now) ≡ true }
        ensures made { OnOk result (self.new
            ≡ record self.old { replica = with_edit self.old.replica session edit.now }) }
        ensures ticket { IfOk result (λ t.
            new_edit_alone self.old.replica edit.now ≡ ticket t) }
        ensures memory { IfErr result (λ e. e ≡ Refusal.Memory) }
        ensures err { OnErr result (self.new ≡ self.old) }
    {
        // From this the proof has that the list is causally closed.
        let _list = self.replica.list();
        let before = self.waiting.len();
        let prepared = self.replica.prepare(edit, decided)?;
        put_made(prepared.ops(), edit, &mut self.waiting)?;
        match self.replica.put_prepared(session, edit, decided, prepared) {
            Ok(ticket) => Ok(ticket),
            Err(refusal) => {
                self.waiting.truncate(before);
                Err(refusal)
            }
        }
    }

    /// Puts a peer's operation that may follow, and for whose record there is room, behind the
    /// list. An error is out of memory (1), and changes nothing.
    pub(crate) fn put_merge(&mut self, peer: u64, op: Op) -> Result<(), Refusal>
        requires may { CanMerge self.old.replica op }
        requires room { has_record_room (state_of self.old) (record_length op) ≡ true }
        ensures merged { OnOk result (self.new
            ≡ record self.old { replica = with_merge self.old.replica peer op }) }
        ensures memory { IfErr result (λ e. e ≡ Refusal.Memory) }
        ensures err { OnErr result (self.new ≡ self.old) }
    {
        let before = self.waiting.len();
        every_op_has_a_spelling(&op);
        put_op(&op, &mut self.waiting)?;
        match self.replica.put_merge(peer, op) {
            Ok(()) => Ok(()),
            Err(refusal) => {
                self.waiting.truncate(before);
                Err(refusal)
            }
        }
    }
}
