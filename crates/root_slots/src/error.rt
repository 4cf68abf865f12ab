//! Why root slots aren't loaded.
ghost use Rattle.std.specs.Prelude.{◌≡◌};
ghost use Rattle.root_slots.specs.declared.error.RootsError.TheVariants.{Memory};

use fixed_numbers::refusals::{BAD_ROOT, MEMORY, NO_ROOT, READ_FAILED};
use std::alloc::AllocError;
use thiserror::Error;

/// Why the root slots of a file aren't loaded.
#[derive(Clone, Copy, Debug, Drop, PartialEq, Eq, Error)]
pub enum RootsError {
    /// 1: a growth of memory was refused.
    #[error("memory")]
    Memory,
    /// 42: the two root slots don't lie whole in the file, or none of them is open.
    #[error("no root")]
    NoRoot,
    /// 43: both slots are open with equal versions, or the live one holds no root body.
    #[error("bad root")]
    BadRoot,
    /// 50: the device failed in telling the size or in a read.
    #[error("read failed")]
    ReadFailed,
}

impl From<AllocError> for RootsError {
    ghost from_gives = { λ _ e. e ≡ Memory };

    fn from(_error: AllocError) -> RootsError {
        RootsError::Memory
    }
}

impl RootsError {
    ghost use Rattle.root_slots.specs.Faults.{number_of};

    /// The number of the refusal.
    pub fn number(self) -> u8
        ensures { result ≡ number_of self }
    {
        match self {
            RootsError::Memory => MEMORY,
            RootsError::NoRoot => NO_ROOT,
            RootsError::BadRoot => BAD_ROOT,
            RootsError::ReadFailed => READ_FAILED,
        }
    }
}
