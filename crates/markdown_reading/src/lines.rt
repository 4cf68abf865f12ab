//! Lines of a page.
use std::alloc::AllocError;

/// How far apart tabs stand.
const TAB: usize = 4;

/// Puts a line into a buffer that is emptied first: the tabs among the marks in front of its text
/// become spaces. An error is out of memory (1).
pub(crate) fn put_line(line: &[char], out: &mut Vec<char>) -> Result<(), AllocError> {
    out.clear();
    let mut is_in_front = true;
    for character in line {
        if is_in_front && *character == '\t' {
            put_spaces(TAB - out.len() % TAB, out)?;
        } else {
            out.push(*character)?;
        }
        is_in_front = is_in_front && is_of_front(*character);
    }
    Ok(())
}

/// Puts so many spaces.
fn put_spaces(count: usize, out: &mut Vec<char>) -> Result<(), AllocError> {
    for _ in 0..count {
        out.push(' ')?;
    }
    Ok(())
}

/// Whether a character may stand among the marks in front of a line's text.
fn is_of_front(character: char) -> bool {
    character.is_ascii_digit()
        || matches!(character, ' ' | '\t' | '>' | '-' | '+' | '*' | '.' | ')')
}
