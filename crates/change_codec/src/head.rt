//! What each record begins with.
ghost use Rattle.change_codec.specs.Reading.{Reads, head_at};

use crate::content::{Kind, take_kind};
use crate::id::take_id;
use crate::number::take_u32;
use crate::{CodecError, Format};
use op_ids::OpId;

/// What each record begins with, before its deps.
#[derive(Clone, Copy, Debug)]
pub struct Head {
    pub kind: Kind,
    /// Whether a token stands behind the deps.
    pub has_token: bool,
    pub doc: u32,
    pub id: OpId,
}

/// Takes a head of a format from the front.
#[tactic(auto, unfolding(crate::specs::Reading::head_at))]
pub(crate) fn take_head(format: Format, bytes: &[u8]) -> Result<(Head, &[u8]), CodecError>
    ensures { Reads (λ x. (x.0, x.1.now)) result (head_at format bytes.now) }
{
    let ((kind, has_token), rest) = take_kind(format, bytes)?;
    let (doc, rest) = take_u32(rest)?;
    match take_id(rest) {
        Ok((id, rest)) => Ok((
            Head {
                kind,
                has_token,
                doc,
                id,
            },
            rest,
        )),
        Err(fault) => Err(fault),
    }
}
