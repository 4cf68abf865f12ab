//! Why a file isn't opened.
ghost use Rattle.std.specs.Prelude.{◌≡◌};

use disk_trait::Disk;
use fixed_numbers::refusals::BAD_OPERATION;
use thiserror::Error;

/// Why a file isn't opened.
#[derive(Clone, Copy, Debug, Drop, PartialEq, Eq, Error)]
pub enum OpenError {
    /// 1, 42, 43, 45, 46, 47, 50, 52: the store finds no root or no stream of operations, or one
    /// of operations that would take more than 2^30 bytes as single records, or the device
    /// failed, or a growth of memory was refused.
    #[error("{0}")]
    Load(group_commit::OpenError),
    /// 47: an operation isn't ready where it stands, or fails a check of those that a merge makes.
    #[error("bad operation")]
    BadOperation,
}

/// Why a file isn't opened, and its disk.
#[derive(Drop)]
pub struct OpenFault<D: Disk> {
    pub cause: OpenError,
    pub disk: D,
}

impl OpenError {
    ghost use Rattle.recovery.specs.Faults.{number_of};

    /// The number of the refusal.
    pub fn number(self) -> u8
        ensures { result ≡ number_of self }
    {
        match self {
            OpenError::Load(error) => error.number(),
            OpenError::BadOperation => BAD_OPERATION,
        }
    }
}
