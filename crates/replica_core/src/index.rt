//! Where each replica's operations stand in a list.
ghost use Rattle.std.specs.Prelude.{◌≡◌, ◌+◌, ◌≤◌, ◌<◌, ◌^◌, List, [], ◌∷◌, ◌++◌, length, take, MatchOption, OnOk};
ghost use Rattle.op_model.specs.declared.op.Op.{Op};
ghost use Rattle.op_model.specs.Causality.{made_by};
ghost use Rattle.op_model.specs.Records.{record_length as length_of, stream_length};
ghost use Rattle.replica_core.specs.Indexes.{IsIndexOf};
ghost use Rattle.replica_core.specs.Makers.{places_of as places_in, room_of};

use crate::maker::{self, Maker, count_below};
use op_ids::ReplicaId;
use op_model::Op;
use run_list::RunSlice;
use std::alloc::{AllocError, Global};

/// What is known of a list of operations without a pass over it: by replica the indexes of its
/// operations, the greatest counter, and the bytes of the records.
#[derive(Debug, Drop)]
pub struct Index {
    pub makers: Vec<Maker>,
    /// The greatest counter of the operations, or 0.
    pub greatest: u64,
    /// How many bytes the records of the operations take.
    pub stream: u64,
}

impl Index {
    /// The index of the empty list. Takes no memory.
    pub(crate) fn new(alloc: Global) -> Index
        ensures { IsIndexOf result [] }
    {
        Index {
            makers: Vec::new(alloc),
            greatest: 0,
            stream: 0,
        }
    }

    /// The indexes of a replica's operations, in the order of the list, or `None` where it has
    /// none. At most a step for each replica.
    pub(crate) fn places_of(&self, replica: ReplicaId) -> Option<&[u32]>
        ensures { MatchOption result (places_in self.now.makers.items replica ≡ [])
            (λ places. places.now ≡ places_in self.now.makers.items replica) }
    {
        maker::places_of(&self.makers, replica)
    }

    /// How many operations of a replica stand before an index of the list, which is there for the
    /// proof. At most a step for each replica, and a search by halves.
    pub(crate) fn count_before(&self, ops: &RunSlice<'_>, replica: ReplicaId, end: usize) -> usize
        requires { IsIndexOf self.now ops.now }
        ensures { result ≡ length (made_by replica (take end ops.now)) }
    {
        let _ = ops;
        match self.places_of(replica) {
            Some(places) => count_below(places, end),
            None => 0,
        }
    }

    /// Makes room for `count` more operations of a replica. An error is out of memory (1).
    pub(crate) fn reserve(
        &mut self,
        alloc: Global,
        replica: ReplicaId,
        count: usize,
    ) -> Result<(), AllocError>
        ensures same { (ops : List Op) → IsIndexOf self.old ops → IsIndexOf self.new ops }
        ensures stream { self.new.stream ≡ self.old.stream }
        ensures room { OnOk result (count ≤ room_of self.new.makers.items replica) }
    {
        maker::reserve(&mut self.makers, alloc, replica, count)
    }

    /// Counts an operation that goes behind `behind` others. There is room for it.
    pub(crate) fn put(&mut self, op: &Op, behind: u32)
        requires room { 0 < room_of self.old.makers.items op.now.id.replica }
        requires small { self.old.stream + length_of op.now < 2 ^ 64 }
        ensures index { (ops : List Op) → IsIndexOf self.old ops → length ops ≡ behind
            → IsIndexOf self.new (ops ++ op.now ∷ []) }
        ensures stream { self.new.stream ≡ self.old.stream + length_of op.now }
        ensures room { room_of self.old.makers.items op.now.id.replica
            ≤ room_of self.new.makers.items op.now.id.replica + 1 }
    {
        maker::put(&mut self.makers, op.id.replica(), behind);
        self.greatest = op.id.counter().max(self.greatest);
        self.stream += op.record_length();
    }

    /// Counts operations of one replica that go behind `behind` others. There is room for them.
    pub(crate) fn put_all(&mut self, ops: &[Op], replica: ReplicaId, behind: u32)
        requires own { made_by replica ops.now ≡ ops.now }
        requires room { length ops.now ≤ room_of self.old.makers.items replica }
        requires few { behind + length ops.now < 2 ^ 32 }
        requires small { self.old.stream + stream_length ops.now < 2 ^ 64 }
        ensures { (earlier : List Op) → IsIndexOf self.old earlier → length earlier ≡ behind
            → IsIndexOf self.new (earlier ++ ops.now) }
    {
        let mut next = behind;
        for op in ops {
            self.put(op, next);
            next += 1;
        }
    }
}
