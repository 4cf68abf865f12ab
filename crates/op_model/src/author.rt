//! Who makes operations.
use op_ids::{Clock, ReplicaId, Token};

/// A replica that makes operations: the next one has this counter, and depends on this clock.
#[derive(Clone, Copy)]
pub struct Author<'a> {
    pub replica: ReplicaId,
    /// The token of the edit that they are made for, if that has one.
    pub token: Option<Token>,
    pub counter: u64,
    pub clock: &'a Clock,
}
