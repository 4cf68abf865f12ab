//! What a meeting does to the locked part.
ghost use Rattle.std.specs.Prelude.{◌≡◌, true, length, drop};
ghost use Rattle.op_model.specs.Held.{with_settled};
ghost use Rattle.op_model.specs.Records.{stream_length};
ghost use Rattle.hub_parts.specs.Locked.{has_commit};

use crate::locked::Locked;

impl Locked {
    /// Whether more operations were taken for a commit than are settled.
    pub(crate) fn has_commit(&self) -> bool
        ensures { result ≡ has_commit self.now }
    {
        self.replica.settled() < self.begun
    }

    /// How many bytes the records of the operations that wait for the next commit take, one by one.
    /// Constant.
    pub(crate) fn waiting_singles(&self) -> u64
        ensures { result ≡ stream_length (drop self.now.begun self.now.replica.list) }
    {
        self.replica.records_length() - self.begun_bytes
    }

    /// Marks all operations as taken for a commit.
    pub(crate) fn take_all(&mut self)
        ensures { self.new ≡ record self.old { begun = length self.old.replica.list } }
    {
        self.begun = self.replica.list().len();
        self.begun_bytes = self.replica.records_length();
        self.waiting.clear();
    }

    /// Settles the operations that were taken, and answers how many are settled now.
    pub(crate) fn settle(&mut self) -> u64
        requires { has_commit self.old ≡ true }
        ensures count { result ≡ self.old.begun }
        ensures settled { self.new ≡ record self.old {
          replica = with_settled self.old.replica
              self.old.begun;
        } }
    {
        self.replica.settle(self.begun);
        self.begun as u64
    }

    /// Marks that a failure of the device is told.
    pub(crate) fn tell_failure(&mut self)
        ensures { self.new ≡ record self.old { failure_told = true } }
    {
        self.failure_told = true;
    }
}
