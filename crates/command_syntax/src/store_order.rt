//! What the words ask of one store.
use op_ids::ReplicaId;

/// What is done over one disk, a reader and writers.
#[derive(Clone, Copy, Debug, PartialEq, Eq)]
pub enum StoreOrder<'a> {
    /// A session over a store in memory.
    InMemory,
    /// A new store of a replica.
    Init { file: &'a str, replica: ReplicaId },
    /// A session over a store.
    Edit { file: &'a str },
}
