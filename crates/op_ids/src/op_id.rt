//! The id of an operation.
ghost use Rattle.std.specs.Prelude.{◌≡◌, ◌+◌, ◌<◌, ◌≤◌, ◌↔◌, IsSome, IsNone, IfSome};
ghost use Rattle.fixed_numbers.specs.declared.limits.TheConstants.{MAX_COUNTER};
ghost use Rattle.op_ids.specs.Id.{Id, is_below, is_same};

use crate::ReplicaId;
use fixed_numbers::limits::MAX_COUNTER;
use std::marker::Model;

/// The id of an operation: a counter from 1 to 2^48 - 1, and the replica that made it. The order is
/// by counter, and then by replica.
#[derive(Clone, Copy, Debug, PartialEq, Eq, PartialOrd, Ord, Hash)]
pub struct OpId {
    counter: u64,
    replica: ReplicaId,
}

impl Model for OpId {
    ghost use Rattle.std.specs.Prelude.{◌<◌, ◌≤◌};
    ghost use Rattle.fixed_numbers.specs.declared.limits.TheConstants.{MAX_COUNTER};
    ghost use Rattle.op_ids.specs.Id.{Id};

    ghost Value = { Id };

    ghost view = { λ a. record { counter = a.counter; replica = a.replica } };

    ghost invariant = { λ a. (0 < a.counter) × (a.counter ≤ MAX_COUNTER) };

    ghost inverse = { λ id. record { counter = id.counter; replica = id.replica } };
}

impl OpId {
    /// The id with this counter and replica.
    pub fn new(counter: u64, replica: ReplicaId) -> OpId
        requires above_zero { 0 < counter }
        requires in_range { counter ≤ MAX_COUNTER }
        ensures { result ≡ record { counter = counter; replica = replica } }
    {
        OpId { counter, replica }
    }

    /// The id with this counter and replica, or `None` where the counter isn't from 1 to 2^48 - 1.
    pub fn try_new(counter: u64, replica: ReplicaId) -> Option<OpId>
        ensures in_range { IsSome result ↔ ((0 < counter) × (counter ≤ MAX_COUNTER)) }
        ensures value { IfSome result (λ id. id ≡ record { counter = counter; replica = replica }) }
    {
        if counter == 0 || counter > MAX_COUNTER {
            return None;
        }
        Some(OpId { counter, replica })
    }

    /// The id of the same replica with the counter one higher, or `None` at the last counter.
    pub fn next(self) -> Option<OpId>
        ensures last { IsNone result ↔ (self.counter ≡ MAX_COUNTER) }
        ensures value { IfSome result (λ id. id ≡ record self { counter = self.counter + 1 }) }
    {
        OpId::try_new(self.counter + 1, self.replica)
    }

    /// The counter, from 1 to 2^48 - 1.
    pub fn counter(self) -> u64
        ensures value { result ≡ self.counter }
        ensures above_zero { 0 < result }
        ensures in_range { result ≤ MAX_COUNTER }
    {
        self.counter
    }

    /// The replica that made the operation.
    pub fn replica(self) -> ReplicaId
        ensures { result ≡ self.replica }
    {
        self.replica
    }

    /// Whether this id comes below another: by counter, and then by replica.
    pub fn is_below(self, other: OpId) -> bool
        ensures { result ≡ is_below self other }
    {
        self < other
    }

    /// Whether both are one id.
    pub fn is_same(self, other: OpId) -> bool
        ensures { result ≡ is_same self other }
    {
        self == other
    }
}
