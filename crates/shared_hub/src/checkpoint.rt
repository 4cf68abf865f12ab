//! Points of a thread's work at which a test can hold it up.

/// What a thread has just done, or is about to do.
#[derive(Clone, Copy, Debug, PartialEq, Eq)]
pub enum Point {
    /// 1: a session has read a line.
    LineRead,
    /// 2: a session is about to wait for a settlement.
    BeforeWait,
    /// 3: the flusher has begun a commit.
    CommitBegun,
    /// 4: the flusher has made a device call.
    DeviceCall,
    /// 5: the flusher has settled a commit.
    Settled,
    /// 6: a link has read a frame.
    FrameRead,
}

/// What each thread passes at each point, with no lock held. It may wait there.
pub trait Checkpoint {
    /// Passes this point.
    fn pass(&self, point: Point);
}

/// One that lets all pass at once.
#[derive(Clone, Copy, Debug, Drop)]
pub struct NoCheckpoint;

impl Checkpoint for NoCheckpoint {
    fn pass(&self, _point: Point) {}
}
