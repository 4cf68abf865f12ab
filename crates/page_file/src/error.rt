//! Why a page is refused.
ghost use Rattle.std.specs.Prelude.{◌≡◌};
ghost use Rattle.page_file.specs.declared.error.PageError.TheVariants.{Memory};

use fixed_numbers::refusals::{BAD_TABLE, MEMORY, NO_PAGE, PAGE_NUMBER, READ_FAILED, WRITE_FAILED};
use std::alloc::AllocError;
use thiserror::Error;

/// Why a call on pages is refused.
#[derive(Clone, Copy, Debug, Drop, PartialEq, Eq, Error)]
pub enum PageError {
    /// 1: a growth of memory was refused.
    #[error("memory")]
    Memory,
    /// 40: it is no data or table page, or not a free one.
    #[error("page number")]
    PageNumber,
    /// 41: the file hasn't that whole page, or a write of it would begin past the end.
    #[error("no page")]
    NoPage,
    /// 45: the table pages name a page twice or a root slot, or more or fewer pages than there are.
    #[error("bad table")]
    BadTable,
    /// 50: the device failed in a read.
    #[error("read failed")]
    ReadFailed,
    /// 51: the device failed in a write.
    #[error("write failed")]
    WriteFailed,
}

impl From<AllocError> for PageError {
    ghost from_gives = { λ _ e. e ≡ Memory };

    fn from(_error: AllocError) -> PageError {
        PageError::Memory
    }
}

impl PageError {
    ghost use Rattle.page_file.specs.PageError.{number_of};

    /// The number of the refusal.
    pub fn number(self) -> u8
        ensures { result ≡ number_of self }
    {
        match self {
            PageError::Memory => MEMORY,
            PageError::PageNumber => PAGE_NUMBER,
            PageError::NoPage => NO_PAGE,
            PageError::BadTable => BAD_TABLE,
            PageError::ReadFailed => READ_FAILED,
            PageError::WriteFailed => WRITE_FAILED,
        }
    }
}
