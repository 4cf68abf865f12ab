//! Who wrote in a document.
ghost use Rattle.std.specs.Prelude.{◌≡◌, ◌==◌, []};
ghost use Rattle.std.specs.List.{list_any};
ghost use Rattle.list_counts.specs.Documents.{with_all, with_writer};

use fixed_numbers::limits::MAX_REPLICAS;
use op_ids::ReplicaId;
use op_model::Op;
use std::marker::Model;

/// The replicas that wrote in a document, in the order in which they came: 16 of them, as many as
/// a store may have. Takes no memory beside itself.
#[derive(Debug, Drop)]
pub struct Writers {
    /// Their numbers, and zeros after them.
    numbers: [u128; MAX_REPLICAS],
    len: usize,
}

impl Model for Writers {
    ghost use Rattle.std.specs.Prelude.{◌≤◌, ℕ, List, take};
    ghost use Rattle.fixed_numbers.specs.declared.limits.TheConstants.{MAX_REPLICAS};

    ghost Value = { List ℕ };

    ghost view = { λ w. take w.len w.numbers };

    ghost invariant = { λ w. w.len ≤ MAX_REPLICAS };
}

impl Writers {
    /// Nobody yet.
    pub fn new() -> Writers
        ensures { result ≡ [] }
    {
        Writers {
            numbers: [0; MAX_REPLICAS],
            len: 0,
        }
    }

    /// The same again.
    pub fn copy(&self) -> Writers
        ensures { result ≡ self.now }
    {
        Writers {
            numbers: self.numbers,
            len: self.len,
        }
    }

    /// Whether a replica is among them. At most 16 steps.
    pub fn has(&self, replica: ReplicaId) -> bool
        ensures { result ≡ list_any (λ writer. writer == replica) self.now }
    {
        self.numbers[..self.len].contains(&replica.number())
    }

    /// Puts a replica after the others, unless it is among them, or they are 16. At most 16 steps.
    pub fn put(&mut self, replica: ReplicaId)
        ensures { self.new ≡ with_writer replica self.old }
    {
        if self.has(replica) || self.len == MAX_REPLICAS {
            return;
        }
        self.numbers[self.len] = replica.number();
        self.len += 1;
    }

    /// Puts the replicas of operations, one after another. At most 16 steps for each.
    pub fn put_all(&mut self, ops: &[Op])
        ensures { self.new ≡ with_all self.old ops.now }
    {
        for op in ops {
            self.put(op.id.replica());
        }
    }
}
