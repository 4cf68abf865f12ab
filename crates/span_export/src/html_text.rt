//! Text as it stands in HTML, between tags and between the quotes of an attribute.
ghost use Rattle.std.specs.Prelude.{encode_utf8_all};
ghost use Rattle.span_export.specs.HtmlText.{html_byte, html_text};
ghost use Rattle.span_export.specs.Putting.{Puts};

use crate::putting::put;
use std::alloc::AllocError;

/// Puts a byte as it stands in HTML.
fn put_html_byte(byte: u8, out: &mut Vec<u8>) -> Result<(), AllocError>
    ensures { Puts result out.old out.new (html_byte byte) }
{
    match byte {
        b'&' => put(b"&amp;", out),
        b'<' => put(b"&lt;", out),
        b'>' => put(b"&gt;", out),
        b'"' => put(b"&quot;", out),
        b'\'' => put(b"&#39;", out),
        b'\r' => put(b"&#13;", out),
        0 => put(b"&#0;", out),
        _ => put(&[byte], out),
    }
}

/// Puts bytes of UTF-8 as they stand in HTML.
pub(crate) fn put_html_text(bytes: &[u8], out: &mut Vec<u8>) -> Result<(), AllocError>
    ensures { Puts result out.old out.new (html_text bytes.now) }
{
    for byte in bytes {
        put_html_byte(*byte, out)?;
    }
    Ok(())
}

/// Puts characters as they stand in HTML.
pub(crate) fn put_html_characters(characters: &[char], out: &mut Vec<u8>) -> Result<(), AllocError>
    ensures { Puts result out.old out.new (html_text (encode_utf8_all characters.now)) }
{
    let mut bytes = [0; 4];
    for character in characters {
        put_html_text(character.encode_utf8(&mut bytes).as_bytes(), out)?;
    }
    Ok(())
}
