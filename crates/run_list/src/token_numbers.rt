//! Tokens as numbers, and operations without them.
ghost use Rattle.std.specs.Prelude.{◌≡◌};
ghost use Rattle.std.specs.Option.{option_map};
ghost use Rattle.change_codec.specs.Fits.{IsToken};
ghost use Rattle.op_pieces.specs.Cutting.{is_next as is_next_of};
ghost use Rattle.run_list.specs.Told.{bare_of as bare_of_op, token_number, token_of as token_of_number};

use op_ids::Token;
use op_model::Op;
use op_pieces::is_next;

/// A token as its number, and 0 for none.
pub(crate) fn number_of(token: Option<Token>) -> u128
    ensures value { result ≡ token_number token }
    ensures fits { IsToken token }
{
    match token {
        Some(token) => token.number(),
        None => 0,
    }
}

/// The token that a number stands for.
pub(crate) fn token_of(number: u128) -> Option<Token>
    ensures { result ≡ token_of_number number }
{
    Token::read(number.to_be_bytes())
}

/// The operation without its token.
pub(crate) fn bare_of(op: Op) -> Op
    ensures { result ≡ bare_of_op op }
{
    let mut bare = op;
    bare.token = None;
    bare
}

/// The same of an operation that there may be.
pub(crate) fn bare_of_some(op: Option<Op>) -> Option<Op>
    ensures { result ≡ option_map bare_of_op op }
{
    match op {
        Some(op) => Some(bare_of(op)),
        None => None,
    }
}

/// Whether an operation is typed right behind the last one, whatever the tokens of both are.
pub(crate) fn is_next_bare(last: Op, op: &Op) -> bool
    ensures { result ≡ is_next_of (bare_of_op last) (bare_of_op op.now) }
{
    let mut last = last;
    last.token = op.token;
    is_next(&last, op)
}
