//! What several changes may take, counted one after another.
ghost use Rattle.std.specs.Prelude.{◌+◌, ◌≤◌, ◌<◌, ◌^◌, IfErr, OnOk};
ghost use Rattle.replica_core.specs.Refusal.{number_of};
ghost use Rattle.replica_core.specs.Turns.{IsRefusedNow, IsTaken};

use crate::refusal::Refusal;
use op_model::Change;

/// The text and the room that some changes leave for those after them.
#[derive(Clone, Copy, Debug)]
pub struct Turn {
    /// How many characters the text has.
    pub shown: usize,
    /// How many operations further changes may make.
    pub operations: u64,
    /// How many bytes of records they may add to the store.
    pub stream: u64,
    /// How many bytes they may add to what waits for a commit.
    pub waiting: u64,
}

impl Turn {
    /// Counts one more change, where the head and the token of a record take `head` bytes at most,
    /// or says why it is refused: `Range` (5) or `Limit` (7). Constant.
    pub(crate) fn take(&mut self, head: u64, change: &Change) -> Result<(), Refusal>
        requires head { head ≤ 1000 }
        requires few { self.old.shown + self.old.operations < 2 ^ 64 }
        ensures taken { OnOk result (IsTaken self.old self.new head change.now) }
        ensures few { OnOk result (self.new.shown + self.new.operations < 2 ^ 64) }
        ensures refused { IfErr result (λ e.
            IsRefusedNow self.old head change.now (number_of e)) }
    {
        if !change.is_inside(self.shown) {
            return Err(Refusal::Range);
        }
        if !change.is_small() {
            return Err(Refusal::Limit);
        }
        let count = change.size() as u64;
        let stream = change.stream_at_most(head);
        let waiting = change.waits_at_most(head);
        if count > self.operations || stream > self.stream || waiting > self.waiting {
            return Err(Refusal::Limit);
        }
        self.shown = change.length_after(self.shown);
        self.operations -= count;
        self.stream -= stream;
        self.waiting -= waiting;
        Ok(())
    }
}
