//! Why a file isn't opened.
ghost use Rattle.std.specs.Prelude.{◌≡◌};
ghost use Rattle.group_commit.specs.Loading.{number_of};
ghost use Rattle.group_commit.specs.declared.open_fault.OpenError.TheVariants.{Memory};

use disk_trait::Disk;
use fixed_numbers::refusals::{
    BAD_OPERATION, BAD_ROOT, BAD_STREAM, BAD_TABLE, MEMORY, NO_ROOT, READ_FAILED, SYNC_FAILED,
};
use page_file::PageError;
use root_slots::RootsError;
use std::alloc::AllocError;
use stream_list::ReadError;
use thiserror::Error;

/// Why a file isn't opened.
#[derive(Clone, Copy, Debug, Drop, PartialEq, Eq, Error)]
pub enum OpenError {
    /// 1: a growth of memory was refused.
    #[error("memory")]
    Memory,
    /// 42: the two root slots don't lie whole in the file, or none of them is open.
    #[error("no root")]
    NoRoot,
    /// 43: both slots are open with equal versions, or the live one holds no root body, or a table
    /// page that it names doesn't lie whole in the file.
    #[error("bad root")]
    BadRoot,
    /// 45: the table pages name a page twice or a root slot or more pages than the stream needs, or
    /// a data page doesn't lie whole in the file.
    #[error("bad table")]
    BadTable,
    /// 46: the rest of the last data page isn't zero, or the stream doesn't spell as many
    /// operations as the root says.
    #[error("bad stream")]
    BadStream,
    /// 47: the stream spells as many operations as the root says, and these would take more than
    /// 2^30 bytes as single records.
    #[error("bad operation")]
    TooLong,
    /// 50: the device failed in a read.
    #[error("read failed")]
    ReadFailed,
    /// 52: the device failed in the sync.
    #[error("sync failed")]
    SyncFailed,
}

/// Why a file isn't opened, and its disk.
#[derive(Drop)]
pub struct OpenFault<D: Disk> {
    pub cause: OpenError,
    pub disk: D,
}

impl From<AllocError> for OpenError {
    ghost from_gives = { λ _ e. e ≡ Memory };

    fn from(_error: AllocError) -> OpenError {
        OpenError::Memory
    }
}

impl From<RootsError> for OpenError {
    ghost use Rattle.group_commit.specs.Loading.{of_roots};

    ghost from_gives = { λ error e. e ≡ of_roots error };

    fn from(error: RootsError) -> OpenError {
        match error {
            RootsError::Memory => OpenError::Memory,
            RootsError::NoRoot => OpenError::NoRoot,
            RootsError::BadRoot => OpenError::BadRoot,
            RootsError::ReadFailed => OpenError::ReadFailed,
        }
    }
}

impl From<PageError> for OpenError {
    ghost use Rattle.group_commit.specs.Loading.{of_pages};

    ghost from_gives = { λ error e. e ≡ of_pages error };

    fn from(error: PageError) -> OpenError {
        match error {
            PageError::Memory => OpenError::Memory,
            PageError::BadTable => OpenError::BadTable,
            _ => OpenError::ReadFailed,
        }
    }
}

impl From<ReadError> for OpenError {
    ghost use Rattle.group_commit.specs.Loading.{of_stream};

    ghost from_gives = { λ error e. e ≡ of_stream error };

    fn from(error: ReadError) -> OpenError {
        match error {
            ReadError::Memory => OpenError::Memory,
            ReadError::Stream => OpenError::BadStream,
            ReadError::Long => OpenError::TooLong,
        }
    }
}

impl OpenError {
    /// The number of the refusal.
    pub fn number(self) -> u8
        ensures { result ≡ number_of self }
    {
        match self {
            OpenError::Memory => MEMORY,
            OpenError::NoRoot => NO_ROOT,
            OpenError::BadRoot => BAD_ROOT,
            OpenError::BadTable => BAD_TABLE,
            OpenError::BadStream => BAD_STREAM,
            OpenError::TooLong => BAD_OPERATION,
            OpenError::ReadFailed => READ_FAILED,
            OpenError::SyncFailed => SYNC_FAILED,
        }
    }
}
