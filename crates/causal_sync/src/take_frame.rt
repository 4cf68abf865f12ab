//! Frames at the front of bytes.
ghost use Rattle.std.specs.Prelude.{◌≡◌, ◌≢◌, ◌++◌, ◌||◌, Ok, Err, None, IfOk, IfSome, IsErrOf};
ghost use Rattle.causal_sync.specs.declared.link_error.LinkError.{LinkError as Fault};
ghost use Rattle.causal_sync.specs.declared.link_error.LinkError.TheVariants.{Memory};
ghost use Rattle.causal_sync.specs.Frames.{frame_bytes, IsFrame};
ghost use Rattle.causal_sync.specs.Reading.{frame_at};
ghost use Rattle.causal_sync.specs.State.{is_fault};
ghost use Rattle.causal_sync.specs.Taking.{Ends, Gives};

use crate::heard::Heard;
use crate::link_error::LinkError;
use crate::take_content::take_content;
use crate::waiting::Waiting;
use fixed_numbers::sizes::MAX_CONTENT;
use op_ids::ReplicaId;
use std::alloc::{AllocError, Global};
use std::collections::VecDeque;

/// The frames at the front of bytes, and why no further one was taken.
#[derive(Drop)]
pub(crate) struct Found {
    pub(crate) frames: VecDeque<Waiting>,
    /// The bytes that the frames take.
    pub(crate) used: usize,
    /// Whether none was taken, where none was heard before.
    pub(crate) is_first: bool,
    /// Whether the last one is a BYE.
    pub(crate) is_over: bool,
    /// The fault of the frame behind them.
    pub(crate) fault: Option<LinkError>,
}

impl Found {
    /// Whether nothing more is read.
    pub(crate) fn has_ended(&self) -> bool
        ensures { result ≡ (is_fault self.now.fault || self.now.is_over) }
    {
        self.fault.is_some() || self.is_over
    }
}

/// The frames at the front of bytes, up to a BYE, a fault or one that isn't whole. An error is out
/// of memory (1). One pass.
pub(crate) fn take_frames(
    alloc: Global,
    own: ReplicaId,
    is_first: bool,
    bytes: &[u8],
) -> Result<Found, AllocError>
    ensures { IfOk result (λ found. Ends own is_first bytes.now found) }
{
    let mut found = Found {
        frames: VecDeque::new(alloc),
        used: 0,
        is_first,
        is_over: false,
        fault: None,
    };
    while !found.is_over {
        let (_, behind) = bytes.split_at(found.used);
        match take_frame(alloc, own, found.is_first, behind) {
            Ok(Some((heard, rest))) => {
                found.used = bytes.len() - rest.len();
                found.is_first = false;
                found.is_over = heard.is_bye();
                let waiting = Waiting::new(heard)?;
                found.frames.push_back(waiting).map_err(AllocError::from)?;
            }
            Ok(None) => return Ok(found),
            Err(fault) => {
                if fault == LinkError::Memory {
                    return Err(AllocError);
                }
                found.fault = Some(fault);
                return Ok(found);
            }
        }
    }
    Ok(found)
}

/// The frame at the front, and the bytes behind it; `None` where it isn't all there.
pub(crate) fn take_frame(
    alloc: Global,
    own: ReplicaId,
    is_first: bool,
    bytes: &[u8],
) -> Result<Option<(Heard, &[u8])>, LinkError>
    ensures found { IfOk result (λ found. IfSome found (λ f.
        (bytes.now ≡ frame_bytes f.0 ++ f.1.now) × IsFrame own is_first f.0)) }
    ensures none { result ≡ Ok None → frame_at own is_first bytes.now ≡ Ok None }
    ensures fault { (e : Fault) → e ≢ Memory → IsErrOf result e
        → frame_at own is_first bytes.now ≡ Err e }
{
    match take_framed(alloc, own, is_first, bytes) {
        Ok(Some((heard, len))) => Ok(Some((heard, bytes.split_at(len).1))),
        Ok(None) => Ok(None),
        Err(fault) => Err(fault),
    }
}

/// The frame at the front, and how many bytes it takes. Its length is tested before the rest is
/// there.
#[tactic(auto, unfolding(crate::specs::Reading::frame_at, crate::specs::Reading::framed))]
fn take_framed(
    alloc: Global,
    own: ReplicaId,
    is_first: bool,
    bytes: &[u8],
) -> Result<Option<(Heard, usize)>, LinkError>
    ensures { Gives (λ x. x) result (frame_at own is_first bytes.now) }
{
    let Some((length, rest)) = bytes.split_first_chunk::<4>() else {
        return Ok(None);
    };
    let len = u32::from_be_bytes(*length) as usize;
    if len == 0 || len > MAX_CONTENT {
        return Err(LinkError::BadFrame);
    }
    if rest.len() < len {
        return Ok(None);
    }
    match take_content(alloc, own, is_first, &rest[..len]) {
        Ok(heard) => Ok(Some((heard, 4 + len))),
        Err(fault) => Err(fault),
    }
}
