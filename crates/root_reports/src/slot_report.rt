//! What the root slots of a file say.
use crate::stale::Stale;
use change_codec::Format;
use op_ids::ReplicaId;

/// What the root slots of a file say: the live one, and what is in the other one.
#[derive(Clone, Copy, Debug)]
pub struct SlotReport {
    /// The page of the live one, 0 or 1.
    pub page: u64,
    /// The format of its stream.
    pub format: Format,
    /// How often a root was made in this file, this one included.
    pub version: u64,
    /// The replica that the file belongs to.
    pub replica: ReplicaId,
    pub stale: Stale,
}
