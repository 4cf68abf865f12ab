//! Bytes and numbers, which all fields are made of.
ghost use Rattle.std.specs.Prelude.{[], ◌∷◌};
ghost use Rattle.std.specs.Int.{w16, w32, w64, w128, from_be_bytes};
ghost use Rattle.change_codec.specs.Spelling.{number_bytes};
ghost use Rattle.change_codec.specs.Writing.{Appends, HasRoom};
ghost use Rattle.change_codec.specs.Reading.{Reads, byte_at, number_at, bytes_at};

use crate::CodecError;

/// Puts bytes at the end, in room that was reserved.
pub fn put_bytes(bytes: &[u8], out: &mut Vec<u8>)
    requires { HasRoom out.old bytes.now }
    ensures { Appends out.old out.new bytes.now }
{
    for byte in bytes {
        out.push_reserved(*byte);
    }
}

/// Puts one byte at the end, in room that was reserved.
pub fn put_byte(byte: u8, out: &mut Vec<u8>)
    requires { HasRoom out.old (byte ∷ []) }
    ensures { Appends out.old out.new (byte ∷ []) }
{
    out.push_reserved(byte);
}

/// Puts a number of two bytes.
#[tactic(auto, unfolding(crate::specs::Spelling::number_bytes))]
pub fn put_u16(number: u16, out: &mut Vec<u8>)
    requires { HasRoom out.old (number_bytes w16 number) }
    ensures { Appends out.old out.new (number_bytes w16 number) }
{
    put_bytes(&number.to_be_bytes(), out);
}

/// Puts a number of four bytes.
#[tactic(auto, unfolding(crate::specs::Spelling::number_bytes))]
pub fn put_u32(number: u32, out: &mut Vec<u8>)
    requires { HasRoom out.old (number_bytes w32 number) }
    ensures { Appends out.old out.new (number_bytes w32 number) }
{
    put_bytes(&number.to_be_bytes(), out);
}

/// Puts a number of eight bytes.
#[tactic(auto, unfolding(crate::specs::Spelling::number_bytes))]
pub(crate) fn put_u64(number: u64, out: &mut Vec<u8>)
    requires { HasRoom out.old (number_bytes w64 number) }
    ensures { Appends out.old out.new (number_bytes w64 number) }
{
    put_bytes(&number.to_be_bytes(), out);
}

/// Takes one byte from the front.
#[tactic(auto, unfolding(crate::specs::Reading::byte_at))]
pub(crate) fn take_byte(bytes: &[u8]) -> Result<(u8, &[u8]), CodecError>
    ensures { Reads (λ x. (x.0, x.1.now)) result (byte_at bytes.now) }
{
    match bytes {
        [] => Err(CodecError::Length),
        [first, rest @ ..] => Ok((*first, rest)),
    }
}

/// Takes this many bytes from the front.
#[tactic(auto, unfolding(crate::specs::Reading::bytes_at))]
pub(crate) fn take_bytes(count: usize, bytes: &[u8]) -> Result<(&[u8], &[u8]), CodecError>
    ensures { Reads (λ x. (x.0.now, x.1.now)) result (bytes_at count bytes.now) }
{
    if bytes.len() < count {
        return Err(CodecError::Length);
    }
    Ok(bytes.split_at(count))
}

/// Takes a number of two bytes from the front.
#[tactic(auto, unfolding(crate::specs::Reading::number_at))]
pub fn take_u16(bytes: &[u8]) -> Result<(u16, &[u8]), CodecError>
    ensures { Reads (λ x. (x.0, x.1.now)) result (number_at w16 bytes.now) }
{
    let Some((first, rest)) = bytes.split_first_chunk::<2>() else {
        return Err(CodecError::Length);
    };
    Ok((u16::from_be_bytes(*first), rest))
}

/// Takes a number of four bytes from the front.
#[tactic(auto, unfolding(crate::specs::Reading::number_at))]
pub fn take_u32(bytes: &[u8]) -> Result<(u32, &[u8]), CodecError>
    ensures { Reads (λ x. (x.0, x.1.now)) result (number_at w32 bytes.now) }
{
    let Some((first, rest)) = bytes.split_first_chunk::<4>() else {
        return Err(CodecError::Length);
    };
    Ok((u32::from_be_bytes(*first), rest))
}

/// Takes a number of eight bytes from the front.
#[tactic(auto, unfolding(crate::specs::Reading::number_at))]
pub fn take_u64(bytes: &[u8]) -> Result<(u64, &[u8]), CodecError>
    ensures { Reads (λ x. (x.0, x.1.now)) result (number_at w64 bytes.now) }
{
    let Some((first, rest)) = bytes.split_first_chunk::<8>() else {
        return Err(CodecError::Length);
    };
    Ok((u64::from_be_bytes(*first), rest))
}

/// Takes sixteen bytes from the front, which contracts see as a number.
#[tactic(auto, unfolding(crate::specs::Reading::number_at))]
pub(crate) fn take_sixteen(bytes: &[u8]) -> Result<([u8; 16], &[u8]), CodecError>
    ensures { Reads (λ x. (from_be_bytes w128 x.0, x.1.now)) result (number_at w128 bytes.now) }
{
    let Some((first, rest)) = bytes.split_first_chunk::<16>() else {
        return Err(CodecError::Length);
    };
    Ok((*first, rest))
}
