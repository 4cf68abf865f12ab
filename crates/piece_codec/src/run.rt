//! The body of a run's record.
ghost use Rattle.std.specs.Prelude.{◌≡◌, IfOk, IfErr, IsOk, true};
ghost use Rattle.op_pieces.specs.Pieces.{is_piece};
ghost use Rattle.change_codec.specs.declared.codec_error.CodecError.TheVariants.{Memory};
ghost use Rattle.change_codec.specs.Lent.{deps_of, Gives};
ghost use Rattle.change_codec.specs.Reading.{deps_at};
ghost use Rattle.piece_codec.specs.Reading.{counted_at, first_of, run_at};

use crate::fields::{RunFront, take_run_head, take_run_tail};
use crate::room::is_count;
use crate::text::take_text;
use change_codec::{CodecError, skip_deps, take_clock};
use op_model::{Body, Op};
use op_pieces::Piece;
use std::alloc::Global;

/// Takes the run that the fields behind the kind of its record give. All of them are tested before
/// any memory is taken.
#[tactic(auto, unfolding(crate::specs::Reading::run_at))]
pub(crate) fn take_run(alloc: Global, has_token: bool, bytes: &[u8]) -> Result<Piece, CodecError>
    ensures { Gives (λ p. p) result (run_at has_token bytes.now) }
{
    match take_run_head(bytes) {
        Ok((head, deps)) => {
            let rest = skip_deps(deps)?;
            match take_run_tail(has_token, rest) {
                Ok((tail, rest)) => take_counted(alloc, &RunFront { head, deps, tail }, rest),
                Err(fault) => Err(fault),
            }
        }
        Err(fault) => Err(fault),
    }
}

/// Takes as many characters as the tail says, if there is room for them. `Number` (32) where there
/// is none.
fn take_counted(alloc: Global, front: &RunFront<'_>, bytes: &[u8]) -> Result<Piece, CodecError>
    requires { IsOk (deps_at front.now.deps.now) }
    ensures { Gives (λ p. p) result (counted_at (first_of front.now.head
        (deps_of front.now.deps.now) front.now.tail) front.now.tail.count bytes.now) }
{
    let count = front.tail.count;
    if !is_count(&front.head, front.deps, &front.tail) {
        return Err(CodecError::Number);
    }
    match take_text(alloc, count - 1, bytes) {
        Ok((value, others)) => make_run(alloc, front, value, others),
        Err(fault) => Err(fault),
    }
}

/// The run with memory of its own. An error is out of memory (1).
fn make_run(
    alloc: Global,
    front: &RunFront<'_>,
    value: char,
    others: Vec<char>,
) -> Result<Piece, CodecError>
    requires tested { IsOk (deps_at front.now.deps.now) }
    requires piece { is_piece (record {
      first = first_of front.now.head (deps_of front.now.deps.now) front.now.tail value;
      others = others.items;
    }) ≡ true }
    ensures ok { IfOk result (λ p. p ≡ record {
      first = first_of front.now.head (deps_of front.now.deps.now) front.now.tail value;
      others = others.items;
    }) }
    ensures err { IfErr result (λ error. error ≡ Memory) }
{
    let (head, tail) = (front.head, front.tail);
    let (deps, _) = take_clock(alloc, front.deps)?;
    let first = Op {
        id: head.id,
        doc: head.doc,
        token: tail.token,
        deps,
        body: Body::Insert {
            origin: tail.origin,
            value,
        },
    };
    Ok(Piece::new(first, others))
}
