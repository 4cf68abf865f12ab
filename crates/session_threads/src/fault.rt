//! Why a session ends before its input does.
ghost use Rattle.std.specs.Prelude.{◌≡◌};
ghost use Rattle.session_threads.specs.declared.fault.SessionFault.TheVariants.{Memory, Stream};

use fixed_numbers::refusals::{MEMORY, STREAM};
use std::alloc::AllocError;
use std::io;
use thiserror::Error;

/// Why a session ends before its input does.
#[derive(Debug, Drop, Error)]
pub enum SessionFault {
    /// 1: the memory that a session holds was refused, so it didn't begin.
    #[error("memory")]
    Memory,
    /// 71: a read or a write failed.
    #[error("stream")]
    Stream(io::Error),
}

impl From<AllocError> for SessionFault {
    ghost from_gives = { λ _ e. e ≡ Memory };

    fn from(_error: AllocError) -> SessionFault {
        SessionFault::Memory
    }
}

impl SessionFault {
    ghost use Rattle.session_threads.specs.Faults.{number_of};

    /// The number of the fault.
    pub fn number(&self) -> u8
        ensures { result ≡ number_of self.now }
    {
        match self {
            SessionFault::Memory => MEMORY,
            SessionFault::Stream(_) => STREAM,
        }
    }
}
