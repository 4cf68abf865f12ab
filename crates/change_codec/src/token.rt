//! Tokens of edits.
ghost use Rattle.std.specs.Int.{w128};
ghost use Rattle.change_codec.specs.Spelling.{number_bytes, token_bytes};
ghost use Rattle.change_codec.specs.Reading.{Reads, token_at};
ghost use Rattle.change_codec.specs.Writing.{Appends, HasRoom};

use crate::CodecError;
use crate::number::{put_bytes, take_sixteen};
use op_ids::Token;

/// Puts the sixteen bytes of a token.
#[tactic(auto, unfolding(crate::specs::Spelling::number_bytes))]
fn put_sixteen(token: Token, out: &mut Vec<u8>)
    requires { HasRoom out.old (number_bytes w128 token) }
    ensures { Appends out.old out.new (number_bytes w128 token) }
{
    put_bytes(&token.bytes(), out);
}

/// Puts the sixteen bytes of a token, or nothing where there is none.
#[tactic(auto, unfolding(crate::specs::Spelling::token_bytes))]
pub fn put_token(token: Option<Token>, out: &mut Vec<u8>)
    requires { HasRoom out.old (token_bytes token) }
    ensures { Appends out.old out.new (token_bytes token) }
{
    if let Some(token) = token {
        put_sixteen(token, out);
    }
}

/// Takes a token from the front, where the record has one. `Number` (32) for the nil one.
#[tactic(auto, unfolding(crate::specs::Reading::token_at, crate::specs::Reading::replica_at))]
pub fn take_token(has_token: bool, bytes: &[u8]) -> Result<(Option<Token>, &[u8]), CodecError>
    ensures { Reads (λ x. (x.0, x.1.now)) result (token_at has_token bytes.now) }
{
    if !has_token {
        return Ok((None, bytes));
    }
    let (number, rest) = take_sixteen(bytes)?;
    match Token::read(number) {
        Some(token) => Ok((Some(token), rest)),
        None => Err(CodecError::Number),
    }
}
