//! JSON strings, put byte by byte: nothing takes memory but what they are put to.
ghost use Rattle.std.specs.Prelude.{◌≡◌, ◌<◌, [], ◌∷◌, encode_utf8_all};
ghost use Rattle.std.specs.Char.{digit_char};
ghost use Rattle.session_lines.specs.Putting.{Puts, inside};
ghost use Rattle.session_lines.specs.Saying.{said_characters};
ghost use Rattle.session_lines.specs.Words.{comma_after, quoted};

use std::alloc::AllocError;

/// Puts bytes after what is there.
pub(crate) fn put(bytes: &[u8], out: &mut Vec<u8>) -> Result<(), AllocError>
    ensures { Puts result out.old out.new bytes.now }
{
    out.extend_from_slice(bytes)
}

/// A comma if something stands before.
pub(crate) fn comma(later: bool) -> &'static [u8]
    ensures { result.now ≡ comma_after later }
{
    if later { b"," } else { b"" }
}

/// A digit in base 16.
fn digit(n: u8) -> u8
    requires { n < 16 }
    ensures { result ≡ digit_char n }
{
    if n < 10 { b'0' + n } else { b'a' + (n - 10) }
}

/// Puts a byte as it stands in a JSON string.
#[tactic(auto, unfolding(serde_json::proofs::OnLiterals::serde_json_on_literals))]
fn put_byte(byte: u8, out: &mut Vec<u8>) -> Result<(), AllocError>
    ensures { Puts result out.old out.new (inside (byte ∷ [])) }
{
    match byte {
        b'"' => put(b"\\\"", out),
        b'\\' => put(b"\\\\", out),
        0x08 => put(b"\\b", out),
        0x0c => put(b"\\f", out),
        b'\n' => put(b"\\n", out),
        b'\r' => put(b"\\r", out),
        b'\t' => put(b"\\t", out),
        0x00..=0x1f => put(
            &[b'\\', b'u', b'0', b'0', digit(byte / 16), digit(byte % 16)],
            out,
        ),
        _ => put(&[byte], out),
    }
}

/// Puts bytes as they stand in a JSON string.
fn put_inside(bytes: &[u8], out: &mut Vec<u8>) -> Result<(), AllocError>
    ensures { Puts result out.old out.new (inside bytes.now) }
{
    for byte in bytes {
        put_byte(*byte, out)?;
    }
    Ok(())
}

/// Puts a text as a JSON string.
pub(crate) fn put_quoted(text: &str, out: &mut Vec<u8>) -> Result<(), AllocError>
    ensures { Puts result out.old out.new (quoted text.now) }
{
    put_quoted_bytes(text.as_bytes(), out)
}

/// Puts bytes of UTF-8 as a JSON string.
pub(crate) fn put_quoted_bytes(bytes: &[u8], out: &mut Vec<u8>) -> Result<(), AllocError>
    ensures { Puts result out.old out.new (quoted bytes.now) }
{
    put(b"\"", out)?;
    put_inside(bytes, out)?;
    put(b"\"", out)
}

/// Puts characters as they stand in a JSON string.
fn put_inside_characters(characters: &[char], out: &mut Vec<u8>) -> Result<(), AllocError>
    ensures { Puts result out.old out.new (inside (encode_utf8_all characters.now)) }
{
    let mut bytes = [0; 4];
    for character in characters {
        put_inside(character.encode_utf8(&mut bytes).as_bytes(), out)?;
    }
    Ok(())
}

/// Puts characters as a JSON string.
pub(crate) fn put_characters(characters: &[char], out: &mut Vec<u8>) -> Result<(), AllocError>
    ensures { Puts result out.old out.new (said_characters characters.now) }
{
    put(b"\"", out)?;
    put_inside_characters(characters, out)?;
    put(b"\"", out)
}
