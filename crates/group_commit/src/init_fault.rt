//! Why a file isn't made.
ghost use Rattle.std.specs.Prelude.{◌≡◌};
ghost use Rattle.group_commit.specs.declared.init_fault.InitError.TheVariants.{Memory};

use crate::error::StoreError;
use disk_trait::Disk;
use fixed_numbers::refusals::{MEMORY, NOT_EMPTY, READ_FAILED, SYNC_FAILED, WRITE_FAILED};
use std::alloc::AllocError;
use thiserror::Error;

/// Why a file isn't made.
#[derive(Clone, Copy, Debug, PartialEq, Eq, Error)]
pub enum InitError {
    /// 1: a growth of memory was refused.
    #[error("memory")]
    Memory,
    /// 48: the file has bytes.
    #[error("not empty")]
    NotEmpty,
    /// 50: the device failed in telling the size.
    #[error("read failed")]
    ReadFailed,
    /// 51: the device failed in a write.
    #[error("write failed")]
    WriteFailed,
    /// 52: the device failed in a sync.
    #[error("sync failed")]
    SyncFailed,
}

/// Why a file isn't made, and its disk.
#[derive(Drop)]
pub struct InitFault<D: Disk> {
    pub cause: InitError,
    pub disk: D,
}

impl From<AllocError> for InitError {
    ghost from_gives = { λ _ e. e ≡ Memory };

    fn from(_error: AllocError) -> InitError {
        InitError::Memory
    }
}

impl InitError {
    ghost use Rattle.group_commit.specs.NewFile.{number_of};

    /// The number of the refusal.
    pub fn number(self) -> u8
        ensures { result ≡ number_of self }
    {
        match self {
            InitError::Memory => MEMORY,
            InitError::NotEmpty => NOT_EMPTY,
            InitError::ReadFailed => READ_FAILED,
            InitError::WriteFailed => WRITE_FAILED,
            InitError::SyncFailed => SYNC_FAILED,
        }
    }
}
