//! Why not all that is due was said and written.
ghost use Rattle.std.specs.Prelude.{◌≡◌};
ghost use Rattle.link_speaker.specs.declared.speak_error.SpeakError.TheVariants.{Memory};
ghost use Rattle.link_speaker.specs.Errors.{speak_error};

use causal_sync::LinkError;
use std::alloc::AllocError;
use std::io;
use thiserror::Error;

/// Why not all that is due was said and written.
#[derive(Debug, Drop, Error)]
pub enum SpeakError {
    /// 1: a growth was refused.
    #[error("memory")]
    Memory,
    /// The line refused a frame: 27 where it has ended, 7 where its base has no room for the
    /// operations.
    #[error("{0}")]
    Link(LinkError),
    /// The writer failed.
    #[error("stream")]
    Stream(io::Error),
}

impl From<AllocError> for SpeakError {
    ghost from_gives = { λ _ e. e ≡ Memory };

    fn from(_error: AllocError) -> SpeakError {
        SpeakError::Memory
    }
}

impl From<LinkError> for SpeakError {
    ghost from_gives = { λ refusal e. e ≡ speak_error refusal };

    fn from(error: LinkError) -> SpeakError {
        match error {
            LinkError::Memory => SpeakError::Memory,
            refusal => SpeakError::Link(refusal),
        }
    }
}
