//! Text as it stands in Markdown.
ghost use Rattle.std.specs.Prelude.{◌≡◌, OnOk};
ghost use Rattle.span_export.specs.MarkdownText.{is_always_marker, is_line_marker};
ghost use Rattle.span_export.specs.MarkdownText.{is_list_marker, is_marker, needs_gap, behind};
ghost use Rattle.span_export.specs.MarkdownText.{add_byte, add_bytes, add_characters};

use crate::before::Before;
use crate::draft::Draft;
use std::alloc::AllocError;

/// Whether a byte means something wherever it stands.
fn is_always_marker(byte: u8) -> bool
    ensures { result ≡ is_always_marker byte }
{
    matches!(
        byte,
        b'\\' | b'`' | b'*' | b'_' | b'[' | b']' | b'<' | b'>' | b'&' | b'!' | b'~' | b'|'
    )
}

/// Whether a byte means something at the start of a line.
fn is_line_marker(byte: u8) -> bool
    ensures { result ≡ is_line_marker byte }
{
    matches!(byte, b'#' | b'+' | b'-' | b'=' | b':')
}

/// Whether a byte makes the digits before it the number of a list's item.
fn is_list_marker(byte: u8) -> bool
    ensures { result ≡ is_list_marker byte }
{
    matches!(byte, b'.' | b')')
}

/// Whether a byte means something there.
fn is_marker(before: Before, byte: u8) -> bool
    ensures { result ≡ is_marker before byte }
{
    is_always_marker(byte)
        || before.is_line_start() && is_line_marker(byte)
        || before.is_digits() && is_list_marker(byte)
}

/// Whether the end of emphasis would be none before this byte.
fn needs_gap(before: Before, byte: u8) -> bool
    ensures { result ≡ needs_gap before byte }
{
    byte != b' ' && byte != b'\n' && before.is_sign_end()
}

/// What stands before the next byte, after this one.
fn behind(before: Before, byte: u8) -> Before
    ensures { result ≡ behind before byte }
{
    match byte {
        b'\n' => Before::LineStart,
        b' ' => Before::Space,
        _ if (before.is_line_start() || before.is_digits()) && byte.is_ascii_digit() => {
            Before::Digits
        }
        _ => Before::Word,
    }
}

/// Writes a byte as it stands in Markdown.
fn add_byte(byte: u8, draft: &mut Draft) -> Result<(), AllocError>
    ensures { OnOk result (draft.new ≡ add_byte byte draft.old) }
{
    let before = draft.before();
    let gap = needs_gap(before, byte);
    let next = behind(before, byte);
    match byte {
        0 => draft.write_apart(gap, b"&#0;", next),
        b'\t' => draft.write_apart(gap, b"&#9;", next),
        b'\n' => draft.write_apart(gap, b"\\\n", next),
        11 => draft.write_apart(gap, b"&#11;", next),
        12 => draft.write_apart(gap, b"&#12;", next),
        b'\r' => draft.write_apart(gap, b"&#13;", next),
        b' ' if before.is_line_start() => draft.write_apart(gap, b"&#32;", next),
        _ if is_marker(before, byte) => draft.write_apart(gap, &[b'\\', byte], next),
        _ => draft.write_apart(gap, &[byte], next),
    }
}

/// Writes bytes of UTF-8 as they stand in Markdown.
fn add_bytes(bytes: &[u8], draft: &mut Draft) -> Result<(), AllocError>
    ensures { OnOk result (draft.new ≡ add_bytes bytes.now draft.old) }
{
    for byte in bytes {
        add_byte(*byte, draft)?;
    }
    Ok(())
}

/// Writes characters as they stand in Markdown.
pub(crate) fn add_characters(characters: &[char], draft: &mut Draft) -> Result<(), AllocError>
    ensures { OnOk result (draft.new ≡ add_characters characters.now draft.old) }
{
    let mut bytes = [0; 4];
    for character in characters {
        add_bytes(character.encode_utf8(&mut bytes).as_bytes(), draft)?;
    }
    Ok(())
}
