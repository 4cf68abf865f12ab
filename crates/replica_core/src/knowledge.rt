//! What a replica knows of its list.
use crate::index::Index;
use op_ids::{Clock, ReplicaId};

/// What a replica knows of its list without a pass over it: the list's clock and its index, and
/// whose list it is.
#[derive(Clone, Copy)]
pub struct Knowledge<'a> {
    pub replica: ReplicaId,
    pub clock: &'a Clock,
    pub index: &'a Index,
}
