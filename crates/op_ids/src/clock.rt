//! How many operations of each replica.
ghost use Rattle.std.specs.Prelude.{◌≤◌, length, ◌≡◌, ℕ, List, [], ◌==◌, ◌↔◌, IsTrue, IsSome, IfSome, IfOk, OnOk, OnErr, IsErrOf, true, false, nat_le, max};
ghost use Rattle.fixed_numbers.specs.declared.limits.TheConstants.{MAX_REPLICAS};
ghost use Rattle.op_ids.specs.Clock.{count_of, advanced, joined, is_within, is_ready, is_clock, with_count, place_of, missing_from, is_same_clock, IsOverfull};

use crate::{ClockError, ReplicaId};
use fixed_numbers::limits::{MAX_COUNT, MAX_REPLICAS};
use std::alloc::{AllocError, Global};
use std::marker::Model;

/// A vector clock: how many operations of each replica. Contracts see it as the list of its
/// entries, a replica and a count each, in strictly rising order of replica: at most 16, each count
/// from 1 to 2^24.
#[derive(Debug, Drop)]
pub struct Clock {
    entries: Vec<(ReplicaId, u64)>,
}

impl Model for Clock {
    ghost Value = { List (ℕ × ℕ) };

    ghost view = { λ c. c.entries.items };

    ghost invariant = { λ c. is_clock c.entries.items ≡ true };
}

impl Clock {
    /// The clock that counts nothing.
    pub fn new(alloc: Global) -> Clock
        ensures { result ≡ [] }
    {
        Clock {
            entries: Vec::new(alloc),
        }
    }

    /// The clock with these entries, or `None` where they aren't those of a clock: at most 16, in
    /// strictly rising order of replica, each count from 1 to 2^24. Takes no memory.
    pub fn from_entries(entries: Vec<(ReplicaId, u64)>) -> Option<Clock>
        ensures valid { IsSome result ↔ (is_clock entries.items ≡ true) }
        ensures same { IfSome result (λ c. c ≡ entries.items) }
    {
        if !are_entries(&entries) {
            return None;
        }
        Some(Clock { entries })
    }

    /// The entries, in strictly rising order of replica.
    pub fn entries(&self) -> &[(ReplicaId, u64)]
        ensures same { result.now ≡ self.now }
        ensures rising { is_clock result.now ≡ true }
    {
        &self.entries
    }

    /// How many replicas are counted: at most `MAX_REPLICAS`.
    pub fn len(&self) -> usize
        ensures value { result ≡ length self.now }
        ensures within { result ≤ MAX_REPLICAS }
    {
        self.entries.len()
    }

    /// Whether nothing is counted.
    pub fn is_empty(&self) -> bool
        ensures { IsTrue result ↔ (self.now ≡ []) }
    {
        self.entries.is_empty()
    }

    /// Another clock with the same entries.
    pub fn copy(&self) -> Result<Clock, AllocError>
        ensures { IfOk result (λ c. c ≡ self.now) }
    {
        Ok(Clock {
            entries: self.entries.clone()?,
        })
    }

    /// How many operations of a replica are counted. At most 16 steps.
    pub fn get(&self, replica: ReplicaId) -> u64
        ensures value { result ≡ count_of self.now replica }
        ensures rising { is_clock self.now ≡ true }
    {
        for entry in &self.entries {
            if entry.0 == replica {
                return entry.1;
            }
        }
        0
    }

    /// Whether at least `count` operations of a replica are counted. At most 16 steps.
    pub fn covers(&self, replica: ReplicaId, count: u64) -> bool
        ensures { result ≡ nat_le count (count_of self.now replica) }
    {
        count <= self.get(replica)
    }

    /// Whether this clock counts nothing beyond the other. At most 16 steps an entry.
    pub fn is_within(&self, other: &Clock) -> bool
        ensures { result ≡ is_within self.now other.now }
    {
        for entry in &self.entries {
            if !other.covers(entry.0, entry.1) {
                return false;
            }
        }
        true
    }

    /// Whether an operation of this replica with these deps is the replica's next one, and all that
    /// it depends on is counted. At most 16 steps an entry.
    pub fn ready(&self, replica: ReplicaId, deps: &Clock) -> bool
        ensures { result ≡ is_ready self.now replica deps.now }
    {
        self.get(replica) == deps.get(replica) && deps.is_within(self)
    }

    /// Whether one more operation of a replica can be counted: there would be no seventeenth
    /// replica, and no count above 2^24. At most 16 steps.
    pub fn can_advance(&self, replica: ReplicaId) -> bool
        ensures fits { result ≡ is_clock (advanced self.now replica) }
        ensures full { result ≡ false → IsOverfull (advanced self.now replica) }
    {
        let count = self.get(replica);
        if count == 0 {
            return self.entries.len() < MAX_REPLICAS;
        }
        count < MAX_COUNT
    }

    /// Counts one more operation of a replica. `Limit` (7) if that would be a seventeenth replica
    /// or a count above 2^24, `Memory` (1) if a growth was refused, which only a new replica needs.
    pub fn advance(&mut self, replica: ReplicaId) -> Result<(), ClockError>
        ensures ok { OnOk result (self.new ≡ advanced self.old replica) }
        ensures limit { IsErrOf result ClockError.Limit
            ↔ (is_clock (advanced self.old replica) ≡ false) }
        ensures full { IsErrOf result ClockError.Limit → IsOverfull (advanced self.old replica) }
        ensures memory { IsErrOf result ClockError.Memory → count_of self.old replica ≡ 0 }
        ensures err { OnErr result (self.new ≡ self.old) }
    {
        if !self.can_advance(replica) {
            return Err(ClockError::Limit);
        }
        let count = self.get(replica);
        self.put(replica, count + 1)?;
        Ok(())
    }

    /// Whether both clocks together count at most 16 replicas. At most 16 steps an entry of the
    /// other.
    pub fn can_join(&self, other: &Clock) -> bool
        ensures { result ≡ is_clock (joined self.now other.now) }
    {
        self.entries.len() + self.missing_from(other) <= MAX_REPLICAS
    }

    /// Takes the greater of both counts of each replica. `Limit` (7) where there would be a
    /// seventeenth replica, `Memory` (1) where a growth was refused.
    pub fn join(&mut self, other: &Clock) -> Result<(), ClockError>
        ensures ok { OnOk result (self.new ≡ joined self.old other.now) }
        ensures limit { IsErrOf result ClockError.Limit
            ↔ (is_clock (joined self.old other.now) ≡ false) }
        ensures greater { OnOk result
            ((r : ℕ) → count_of self.new r ≡ max (count_of self.old r) (count_of other.now r)) }
        ensures err { OnErr result (self.new ≡ self.old) }
    {
        if !self.can_join(other) {
            return Err(ClockError::Limit);
        }
        let mut joined = self.copy()?;
        for entry in &other.entries {
            let count = joined.get(entry.0).max(entry.1);
            joined.put(entry.0, count)?;
        }
        *self = joined;
        Ok(())
    }

    /// How many replicas the other clock counts and this one doesn't. At most 16 steps an entry.
    fn missing_from(&self, other: &Clock) -> usize
        ensures value { result ≡ missing_from self.now other.now }
        ensures rising { is_clock other.now ≡ true }
    {
        let mut missing = 0;
        for entry in &other.entries {
            if self.get(entry.0) == 0 {
                missing += 1;
            }
        }
        missing
    }

    /// How many entries are of replicas below this one.
    fn place(&self, replica: ReplicaId) -> usize
        ensures { result ≡ place_of self.now replica }
    {
        for (index, entry) in self.entries.iter().enumerate() {
            if replica <= entry.0 {
                return index;
            }
        }
        self.entries.len()
    }

    /// Sets the count of a replica.
    pub(crate) fn put(&mut self, replica: ReplicaId, count: u64) -> Result<(), AllocError>
        requires { is_clock (with_count self.old replica count) ≡ true }
        ensures ok { OnOk result (self.new ≡ with_count self.old replica count) }
        ensures err { OnErr result (self.new ≡ self.old) }
        ensures grows { OnErr result (count_of self.old replica ≡ 0) }
    {
        let place = self.place(replica);
        if place < self.entries.len() && self.entries[place].0 == replica {
            self.entries[place] = (replica, count);
            return Ok(());
        }
        self.entries.insert(place, (replica, count))?;
        Ok(())
    }
}

impl PartialEq for Clock {
    ghost use Rattle.std.specs.Cmp.{partial_equiv_from_equiv};
    ghost use Rattle.std.proofs.lemmas.Cmp.{on_equiv, and_equiv, nat_eq_equiv, lists_equiv};

    ghost eq = { is_same_clock };

    ghost laws = { partial_equiv_from_equiv
        (lists_equiv
        (and_equiv (on_equiv (λ e. e.0) nat_eq_equiv) (on_equiv (λ e. e.1) nat_eq_equiv))) };

    /// Whether both count the same operations. At most 16 steps.
    fn eq(&self, other: &Clock) -> bool
        ensures value { result ≡ is_same_clock self.now other.now }
        ensures same { IsTrue result ↔ (self.now ≡ other.now) }
    {
        self.entries == other.entries
    }
}

impl Eq for Clock {
    ghost use Rattle.std.proofs.lemmas.Cmp.{on_equiv, and_equiv, nat_eq_equiv, lists_equiv};

    ghost laws = { lists_equiv
        (and_equiv (on_equiv (λ e. e.0) nat_eq_equiv) (on_equiv (λ e. e.1) nat_eq_equiv)) };
}

/// Whether these are the entries of a clock.
fn are_entries(entries: &[(ReplicaId, u64)]) -> bool
    ensures { result ≡ is_clock entries.now }
{
    if entries.len() > MAX_REPLICAS {
        return false;
    }
    let mut low = 0;
    for entry in entries {
        if entry.0.number() <= low || entry.1 == 0 || entry.1 > MAX_COUNT {
            return false;
        }
        low = entry.0.number();
    }
    true
}
