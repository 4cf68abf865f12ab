//! An operation of a run, made from the first one.
ghost use Rattle.std.specs.Prelude.{◌≡◌, ◌+◌, ◌<◌, ◌≤◌, true, Some, IfOk};
ghost use Rattle.fixed_numbers.specs.declared.limits.TheConstants.{MAX_COUNTER};
ghost use Rattle.change_codec.specs.Fits.{IsOperation};
ghost use Rattle.run_list.specs.Reading.{typed_at as typed_at_of};

use op_ids::{ClockError, OpId};
use op_list::OpHead;
use op_model::{Body, Op};
use std::alloc::AllocError;

/// The operation that stands so far behind the first one of its run, and types this character. An
/// error is out of memory (1).
pub(crate) fn typed_at(first: Op, behind: u64, value: char) -> Result<Op, AllocError>
    requires some { 0 < behind }
    requires fits { IsOperation (typed_at_of first behind value) }
    ensures { IfOk result (λ op. op ≡ typed_at_of first behind value) }
{
    let Op {
        id,
        doc,
        token,
        mut deps,
        ..
    } = first;
    let replica = id.replica();
    match deps.advance_by(replica, behind) {
        Ok(()) => {}
        Err(ClockError::Memory) => return Err(AllocError),
        Err(ClockError::Limit) => unreachable!(),
    }
    let counter = id.counter() + behind;
    Ok(Op {
        id: OpId::new(counter, replica),
        doc,
        token,
        deps,
        body: Body::Insert {
            origin: Some(OpId::new(counter - 1, replica)),
            value,
        },
    })
}

/// The head of the operation that stands so far behind the first one of its run, whose head this
/// is.
pub(crate) fn head_at(first: OpHead, behind: u64) -> OpHead
    requires some { 0 < behind }
    requires fits { first.id.counter + behind ≤ MAX_COUNTER }
    ensures { result ≡ record {
      id = record { counter = first.id.counter + behind; replica = first.id.replica };
      doc = first.doc;
      is_insert = true;
    } }
{
    OpHead {
        id: OpId::new(first.id.counter() + behind, first.id.replica()),
        doc: first.doc,
        is_insert: true,
    }
}
