//! How much there is of what there is a limit to.

/// How much a file has of what there is a limit to.
#[derive(Clone, Copy, Debug, PartialEq, Eq)]
pub struct FileRoom {
    /// Bytes of records, of 1,073,741,824.
    pub bytes: u64,
    /// Documents that have operations, of 1,024.
    pub documents: u64,
    /// Operations, of 16,777,216.
    pub operations: u64,
    /// Replicas that have operations, of 16.
    pub replicas: u64,
}

/// How much an opened replica has of what there is a limit to.
#[derive(Clone, Copy, Debug, PartialEq, Eq)]
pub struct Room {
    /// What is in its file, with what isn't settled.
    pub file: FileRoom,
    /// Steps since its file was opened, of 1,048,576.
    pub steps: u64,
}
