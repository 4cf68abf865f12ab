//! The characters of a run.
ghost use Rattle.std.specs.Prelude.{◌∷◌, ◌<◌, length};
ghost use Rattle.change_codec.specs.Lent.{Collects, Gives};
ghost use Rattle.change_codec.specs.Reading.{Reads, only_rest, only_value};
ghost use Rattle.change_codec.specs.Writing.{Appends, HasRoom};
ghost use Rattle.piece_codec.specs.Reading.{scalars_at, text_at, Tests};
ghost use Rattle.piece_codec.specs.Spelling.{scalars_bytes, text_bytes};

use change_codec::{CodecError, put_u16, put_u32, take_scalar};
use std::alloc::Global;

/// Puts the number of characters, a first one and others, and each of them.
#[tactic(auto, unfolding(crate::specs::Spelling::text_bytes))]
pub(crate) fn put_text(first: char, others: &[char], out: &mut Vec<u8>)
    requires few { length others.now < 256 }
    requires room { HasRoom out.old (text_bytes (first ∷ others.now)) }
    ensures { Appends out.old out.new (text_bytes (first ∷ others.now)) }
{
    put_u16(others.len() as u16 + 1, out);
    put_first(first, others, out);
}

#[tactic(auto, unfolding(crate::specs::Spelling::scalars_bytes))]
fn put_first(first: char, others: &[char], out: &mut Vec<u8>)
    requires { HasRoom out.old (scalars_bytes (first ∷ others.now)) }
    ensures { Appends out.old out.new (scalars_bytes (first ∷ others.now)) }
{
    put_u32(first as u32, out);
    put_scalars(others, out);
}

fn put_scalars(values: &[char], out: &mut Vec<u8>)
    requires { HasRoom out.old (scalars_bytes values.now) }
    ensures { Appends out.old out.new (scalars_bytes values.now) }
{
    for value in values {
        put_u32(*value as u32, out);
    }
}

/// Takes a first character and so many others, behind which nothing may stand. `Scalar` (33) for no
/// Unicode scalar value; `Length` (30) where the bytes end before the last one, and where bytes are
/// left behind it; the first fault decides. `Memory` (1) may only stand in place of characters. Two
/// passes; memory for all of them is reserved once.
pub(crate) fn take_text(
    alloc: Global,
    others: u16,
    bytes: &[u8],
) -> Result<(char, Vec<char>), CodecError>
    ensures { Gives (λ x. (x.0, x.1.items)) result (text_at others bytes.now) }
{
    test_text(others, bytes)?;
    match take_scalar(bytes) {
        Ok((first, rest)) => match collect_scalars(alloc, others, rest) {
            Ok(others) => Ok((first, others)),
            Err(fault) => Err(fault),
        },
        Err(fault) => Err(fault),
    }
}

#[tactic(auto, unfolding(crate::specs::Reading::text_at))]
fn test_text(others: u16, bytes: &[u8]) -> Result<(), CodecError>
    ensures { Tests result (text_at others bytes.now) }
{
    let (_, rest) = take_scalar(bytes)?;
    match skip_scalars(others, rest) {
        Ok([]) => Ok(()),
        Ok([_, ..]) => Err(CodecError::Length),
        Err(fault) => Err(fault),
    }
}

/// Tests so many characters, and gives the bytes behind them.
fn skip_scalars(count: u16, bytes: &[u8]) -> Result<&[u8], CodecError>
    ensures { Reads (λ rest. rest.now) result (only_rest (scalars_at count bytes.now)) }
{
    let mut rest = bytes;
    for _ in 0..count {
        match take_scalar(rest) {
            Ok((_, after)) => rest = after,
            Err(fault) => return Err(fault),
        }
    }
    Ok(rest)
}

fn collect_scalars(alloc: Global, count: u16, bytes: &[u8]) -> Result<Vec<char>, CodecError>
    ensures { Collects (λ values. values.items) result
        (only_value (scalars_at count bytes.now)) }
{
    let mut values = Vec::with_capacity(alloc, count as usize)?;
    let mut rest = bytes;
    for _ in 0..count {
        match take_scalar(rest) {
            Ok((value, after)) => {
                rest = after;
                values.push_reserved(value);
            }
            Err(fault) => return Err(fault),
        }
    }
    Ok(values)
}
