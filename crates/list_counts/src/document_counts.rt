//! What is counted of a document.

use op_ids::ReplicaId;
use std::marker::Model;

/// What is counted of a document. Contracts see its numbers, and who wrote in it as a list.
#[derive(Debug, Drop)]
pub struct DocumentCounts {
    /// Its number.
    pub doc: u32,
    /// How many characters it shows.
    pub chars: u64,
    /// How many operations it has.
    pub ops: u64,
    /// The replicas that have operations in it, at most 16, in rising order.
    pub writers: Vec<ReplicaId>,
}

impl Model for DocumentCounts {
    ghost use Rattle.list_counts.specs.Documents.{Counted};

    ghost Value = { Counted };

    ghost view = { λ d. record {
      doc = d.doc;
      chars = d.chars;
      ops = d.ops;
      writers = d.writers.items;
    } };
}
