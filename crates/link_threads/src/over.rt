//! What ended a link.
use causal_sync::LinkError;
use fixed_numbers::refusals::{MEMORY, STOPPING};
use shared_hub::SharedRefusal;
use thiserror::Error;

/// What ended a link, with its words.
#[derive(Clone, Copy, Debug, PartialEq, Eq, Error)]
pub(crate) enum Over {
    /// 0: the stream ended, or failed, or this end of it did.
    #[error("the stream ended")]
    Closed,
    /// 0: the other end said BYE.
    #[error("the other end said bye")]
    Bye,
    /// 1: there was no memory to begin with.
    #[error("memory")]
    NoMemory,
    /// 12: the other end counts operations of this replica that aren't here.
    #[error("put back from an older copy")]
    PutBack,
    /// What the other end said breaks the rules of a link.
    #[error("{0}")]
    Broken(LinkError),
    /// An operation of the other end was refused.
    #[error("{0}")]
    Refused(SharedRefusal),
}

impl Over {
    /// The number of the refusal that ended the link, or 0 where nothing was refused.
    pub(crate) fn number(self) -> u8 {
        match self {
            Over::Closed | Over::Bye => 0,
            Over::NoMemory => MEMORY,
            Over::PutBack => STOPPING,
            Over::Broken(error) => error.number(),
            Over::Refused(refusal) => refusal.number(),
        }
    }
}
