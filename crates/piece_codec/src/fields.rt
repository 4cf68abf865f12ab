//! The fields of a run's record, but for its deps and its characters.
ghost use Rattle.std.specs.Prelude.{◌≡◌};
ghost use Rattle.op_pieces.specs.Cutting.{value_of};
ghost use Rattle.change_codec.specs.Reading.{Reads};
ghost use Rattle.piece_codec.specs.Reading.{run_head_at, run_tail_at};
ghost use Rattle.piece_codec.specs.Spelling.{origin_of};

use change_codec::{CodecError, take_id, take_origin, take_token, take_u16, take_u32};
use op_ids::{OpId, Token};
use op_model::Body;

/// What a run's record says before its deps.
#[derive(Clone, Copy, Debug)]
pub struct RunHead {
    pub doc: u32,
    /// The id of the first operation.
    pub id: OpId,
}

/// What a run's record says between its deps and its characters.
#[derive(Clone, Copy, Debug)]
pub struct RunTail {
    pub token: Option<Token>,
    /// What the first operation is inserted behind, if it has an origin.
    pub origin: Option<OpId>,
    /// The number of its characters, which isn't tested yet.
    pub count: u16,
}

/// What a run's record says before its characters: its deps are the bytes that were tested.
#[derive(Clone, Copy, Debug)]
pub struct RunFront<'a> {
    pub head: RunHead,
    pub deps: &'a [u8],
    pub tail: RunTail,
}

/// The origin and the character of an insert; none and NUL of another operation.
pub(crate) fn insert_of(body: &Body) -> (Option<OpId>, char)
    ensures { result ≡ (origin_of body.now, value_of body.now) }
{
    match body {
        Body::Insert { origin, value } => (*origin, *value),
        _ => (None, '\0'),
    }
}

/// Takes what stands before the deps. `Number` (32) where the counter isn't from 1 to 2^48 - 1, or
/// for the nil replica.
#[tactic(auto, unfolding(crate::specs::Reading::run_head_at))]
pub(crate) fn take_run_head(bytes: &[u8]) -> Result<(RunHead, &[u8]), CodecError>
    ensures { Reads (λ x. (x.0, x.1.now)) result (run_head_at bytes.now) }
{
    let (doc, rest) = take_u32(bytes)?;
    match take_id(rest) {
        Ok((id, rest)) => Ok((RunHead { doc, id }, rest)),
        Err(fault) => Err(fault),
    }
}

/// Takes what stands between the deps and the characters. `Number` (32) for the nil token, `Kind`
/// (31) for no kind of origin.
#[tactic(auto, unfolding(crate::specs::Reading::run_tail_at))]
pub(crate) fn take_run_tail(has_token: bool, bytes: &[u8]) -> Result<(RunTail, &[u8]), CodecError>
    ensures { Reads (λ x. (x.0, x.1.now)) result (run_tail_at has_token bytes.now) }
{
    match take_token(has_token, bytes) {
        Ok((token, rest)) => match take_origin(rest) {
            Ok((origin, rest)) => {
                let (count, rest) = take_u16(rest)?;
                let tail = RunTail {
                    token,
                    origin,
                    count,
                };
                Ok((tail, rest))
            }
            Err(fault) => Err(fault),
        },
        Err(fault) => Err(fault),
    }
}
