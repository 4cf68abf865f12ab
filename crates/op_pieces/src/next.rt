//! Whether an operation is typed right behind another one.
ghost use Rattle.std.specs.Prelude.{◌≡◌};
ghost use Rattle.op_model.specs.Causality.{is_insert as is_insert_of};
ghost use Rattle.op_pieces.specs.Cutting.{is_behind as is_behind_of, is_next as is_next_of, is_same_token as is_same_token_of};
ghost use Rattle.op_pieces.specs.Cutting.{value_of as value_of_body};

use crate::clocks::is_one_more;
use op_ids::{OpId, Token};
use op_model::{Body, Op};

/// Whether an operation is typed right behind the last one, which is an insert: the same replica,
/// document and token, one more counter, and what it depends on is one operation more. A few steps
/// for clocks; takes no memory.
pub fn is_next(last: &Op, op: &Op) -> bool
    ensures { result ≡ is_next_of last.now op.now }
{
    is_insert(&last.body)
        && is_behind(last.id, &op.body)
        && op.id.counter() == last.id.counter() + 1
        && op.id.replica() == last.id.replica()
        && op.doc == last.doc
        && is_same_token(op.token, last.token)
        && is_one_more(&op.deps, &last.deps, last.id.replica())
}

/// The character that is inserted, or NUL.
pub fn value_of(body: &Body) -> char
    ensures { result ≡ value_of_body body.now }
{
    match body {
        Body::Insert { value, .. } => *value,
        _ => '\0',
    }
}

fn is_insert(body: &Body) -> bool
    ensures { result ≡ is_insert_of body.now }
{
    match body {
        Body::Insert { .. } => true,
        _ => false,
    }
}

fn is_behind(id: OpId, body: &Body) -> bool
    ensures { result ≡ is_behind_of id body.now }
{
    match body {
        Body::Insert {
            origin: Some(origin),
            ..
        } => origin.is_same(id),
        _ => false,
    }
}

fn is_same_token(a: Option<Token>, b: Option<Token>) -> bool
    ensures { result ≡ is_same_token_of a b }
{
    match (a, b) {
        (None, None) => true,
        (Some(a), Some(b)) => a == b,
        _ => false,
    }
}
