//! What a disk refuses.
ghost use Rattle.std.specs.Prelude.{◌≡◌};

use fixed_numbers::refusals::{OPEN_FAILED, PAST_END, READ_FAILED, SYNC_FAILED, WRITE_FAILED};
use thiserror::Error;

/// A refusal of a disk, with its number and its words.
#[derive(Clone, Copy, Debug, PartialEq, Eq, Error)]
pub enum DiskError {
    /// 50: the device failed in a `read_at` or a `size`.
    #[error("read failed")]
    ReadFailed,
    /// 51: the device failed in a `write_at`.
    #[error("write failed")]
    WriteFailed,
    /// 52: the device failed in a `sync`.
    #[error("sync failed")]
    SyncFailed,
    /// 53: a read past the end of the file, or a write that begins past it.
    #[error("past end")]
    PastEnd,
    /// 54: the file can't be opened or made.
    #[error("open failed")]
    OpenFailed,
}

impl DiskError {
    ghost use Rattle.disk_trait.specs.DiskError.{number_of};

    /// The number of the refusal, from 50 to 54.
    pub fn number(self) -> u8
        ensures { result ≡ number_of self }
    {
        match self {
            DiskError::ReadFailed => READ_FAILED,
            DiskError::WriteFailed => WRITE_FAILED,
            DiskError::SyncFailed => SYNC_FAILED,
            DiskError::PastEnd => PAST_END,
            DiskError::OpenFailed => OPEN_FAILED,
        }
    }
}
