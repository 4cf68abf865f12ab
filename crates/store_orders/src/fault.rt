//! What ends the program with status 1.
ghost use Rattle.std.specs.Prelude.{◌≡◌};
ghost use Rattle.group_commit.specs.NewFile.{number_of as number_of_init};
ghost use Rattle.recovery.specs.Faults.{number_of as number_of_open};
ghost use Rattle.group_commit.specs.Loading.{number_of as number_of_load};
ghost use Rattle.session_threads.specs.Faults.{number_of as number_of_session};
ghost use Rattle.store_orders.specs.Ends.{number_of};
ghost use Rattle.store_orders.specs.declared.fault.Fault.TheVariants.{Memory};

use fixed_numbers::refusals::{
    BAD_OPERATION, BAD_ROOT, BAD_STREAM, BAD_TABLE, FAILED, FIELD, MEMORY, NO_ROOT, NOT_EMPTY,
    OPEN_FAILED, READ_FAILED, SOCKET, STREAM, SYNC_FAILED, WRITE_FAILED,
};
use group_commit::InitError;
use session_threads::SessionFault;
use std::alloc::AllocError;
use thiserror::Error;

/// A refusal that ends the program. Its text is the word that stands beside its number.
#[derive(Clone, Copy, Debug, PartialEq, Eq, Error)]
pub enum Fault {
    /// 1: a growth was refused.
    #[error("memory")]
    Memory,
    /// 4: a UUID, a document number or a form breaks its rule.
    #[error("field")]
    Field,
    /// 9: the device failed in a session, and the store must be opened again.
    #[error("failed")]
    Failed,
    /// 42: no open slot.
    #[error("no root")]
    NoRoot,
    /// 43: the live body breaks its rules, or two open slots have equal versions.
    #[error("bad root")]
    BadRoot,
    /// 45: a table page breaks its rules.
    #[error("bad table")]
    BadTable,
    /// 46: the stream or its records break their rules.
    #[error("bad stream")]
    BadStream,
    /// 47: an operation isn't ready, or fails a check.
    #[error("bad operation")]
    BadOperation,
    /// 48: a file that is to be made has bytes.
    #[error("not empty")]
    NotEmpty,
    /// 50: the device failed in a read.
    #[error("read failed")]
    ReadFailed,
    /// 51: the device failed in a write.
    #[error("write failed")]
    WriteFailed,
    /// 52: the device failed in a sync.
    #[error("sync failed")]
    SyncFailed,
    /// 54: the file can't be opened or made.
    #[error("open failed")]
    OpenFailed,
    /// 70: a socket can't be opened, or the peer can't be joined.
    #[error("socket")]
    Socket,
    /// 71: standard input or output failed.
    #[error("stream")]
    Stream,
}

impl Fault {
    /// The number of the fault.
    pub fn number(self) -> u8
        ensures { result ≡ number_of self }
    {
        match self {
            Fault::Memory => MEMORY,
            Fault::Field => FIELD,
            Fault::Failed => FAILED,
            Fault::NoRoot => NO_ROOT,
            Fault::BadRoot => BAD_ROOT,
            Fault::BadTable => BAD_TABLE,
            Fault::BadStream => BAD_STREAM,
            Fault::BadOperation => BAD_OPERATION,
            Fault::NotEmpty => NOT_EMPTY,
            Fault::ReadFailed => READ_FAILED,
            Fault::WriteFailed => WRITE_FAILED,
            Fault::SyncFailed => SYNC_FAILED,
            Fault::OpenFailed => OPEN_FAILED,
            Fault::Socket => SOCKET,
            Fault::Stream => STREAM,
        }
    }

    /// Whether it is about the file that an order names.
    pub fn is_of_file(self) -> bool {
        !matches!(
            self,
            Fault::Memory | Fault::Field | Fault::Socket | Fault::Stream
        )
    }
}

impl From<InitError> for Fault {
    ghost from_gives = { λ error fault. number_of fault ≡ number_of_init error };

    fn from(error: InitError) -> Fault {
        match error {
            InitError::Memory => Fault::Memory,
            InitError::NotEmpty => Fault::NotEmpty,
            InitError::ReadFailed => Fault::ReadFailed,
            InitError::WriteFailed => Fault::WriteFailed,
            InitError::SyncFailed => Fault::SyncFailed,
        }
    }
}

impl From<recovery::OpenError> for Fault {
    ghost from_gives = { λ error fault. number_of fault ≡ number_of_open error };

    fn from(error: recovery::OpenError) -> Fault {
        match error {
            recovery::OpenError::Load(error) => loading(error),
            recovery::OpenError::BadOperation => Fault::BadOperation,
        }
    }
}

/// The fault that stands for one of a store.
fn loading(error: group_commit::OpenError) -> Fault
    ensures { number_of result ≡ number_of_load error }
{
    match error {
        group_commit::OpenError::Memory => Fault::Memory,
        group_commit::OpenError::NoRoot => Fault::NoRoot,
        group_commit::OpenError::BadRoot => Fault::BadRoot,
        group_commit::OpenError::BadTable => Fault::BadTable,
        group_commit::OpenError::BadStream => Fault::BadStream,
        group_commit::OpenError::TooLong => Fault::BadOperation,
        group_commit::OpenError::ReadFailed => Fault::ReadFailed,
        group_commit::OpenError::SyncFailed => Fault::SyncFailed,
    }
}

impl From<AllocError> for Fault {
    ghost from_gives = { λ _ fault. fault ≡ Memory };

    fn from(_error: AllocError) -> Fault {
        Fault::Memory
    }
}

impl From<SessionFault> for Fault {
    ghost from_gives = { λ error fault. number_of fault ≡ number_of_session error };

    fn from(error: SessionFault) -> Fault {
        match error {
            SessionFault::Memory => Fault::Memory,
            SessionFault::Stream(_) => Fault::Stream,
        }
    }
}
