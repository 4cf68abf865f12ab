//! Why a store refuses.
ghost use Rattle.std.specs.Prelude.{◌≡◌};
ghost use Rattle.group_commit.specs.declared.error.StoreError.TheVariants.{Memory};

use fixed_numbers::refusals::{BUSY, LIMIT, MEMORY, STORE_FAILED, SYNC_FAILED, WRITE_FAILED};
use std::alloc::AllocError;
use thiserror::Error;

/// Why a store refuses a call.
#[derive(Clone, Copy, Debug, PartialEq, Eq, Error)]
pub enum StoreError {
    /// 1: a growth of memory was refused.
    #[error("memory")]
    Memory,
    /// 7: the version, the stream or the number of operations has no room.
    #[error("limit")]
    Limit,
    /// 8: a commit is under way.
    #[error("busy")]
    Busy,
    /// 44: a device call failed before. The store has to be opened again.
    #[error("store failed")]
    Failed,
    /// 51: the device failed in a write.
    #[error("write failed")]
    WriteFailed,
    /// 52: the device failed in a sync.
    #[error("sync failed")]
    SyncFailed,
}

impl From<AllocError> for StoreError {
    ghost from_gives = { λ _ e. e ≡ Memory };

    fn from(_error: AllocError) -> StoreError {
        StoreError::Memory
    }
}

impl StoreError {
    ghost use Rattle.group_commit.specs.Errors.{number_of};

    /// The number of the refusal.
    pub fn number(self) -> u8
        ensures { result ≡ number_of self }
    {
        match self {
            StoreError::Memory => MEMORY,
            StoreError::Limit => LIMIT,
            StoreError::Busy => BUSY,
            StoreError::Failed => STORE_FAILED,
            StoreError::WriteFailed => WRITE_FAILED,
            StoreError::SyncFailed => SYNC_FAILED,
        }
    }
}
