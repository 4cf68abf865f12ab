//! What a root says before the numbers of its table pages.
use change_codec::Format;
use op_ids::ReplicaId;

/// The numbers of a root but for those of its table pages.
#[derive(Clone, Copy, Debug)]
pub struct RootHead {
    /// The format of the stream.
    pub format: Format,
    /// How often a root was made in this file, this one included.
    pub version: u64,
    /// The replica that the file belongs to.
    pub replica: ReplicaId,
    /// How many bytes the stream of operations has.
    pub stream_length: u64,
    /// How many operations there are.
    pub operations: u64,
}
