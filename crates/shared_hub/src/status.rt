//! How far a shared hub is.

/// How far a shared hub is.
#[derive(Clone, Copy, Debug, PartialEq, Eq)]
pub struct Status {
    /// How many operations the list has.
    pub applied: u64,
    /// How many of them are settled.
    pub settled: u64,
    /// Whether a meeting has told a failure of the device.
    pub has_failed: bool,
    /// Whether it was asked to stop.
    pub is_stopping: bool,
}
