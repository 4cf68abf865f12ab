//! Characters that are written by their names or numbers.
use crate::characters::shown;
use crate::scanning::{after, after_word, front, skip};

/// The names that are known.
const NAMES: [(&str, char); 5] = [
    ("amp;", '&'),
    ("lt;", '<'),
    ("gt;", '>'),
    ("quot;", '"'),
    ("nbsp;", '\u{a0}'),
];

/// The character that a reference after `&` stands for, and what is left after it.
pub(crate) fn entity(text: &[char]) -> Option<(char, &[char])> {
    if let Some(rest) = after(text, '#') {
        return numbered(rest);
    }
    for (name, character) in NAMES {
        if let Some(rest) = after_word(text, name) {
            return Some((character, rest));
        }
    }
    None
}

/// The character of a number after `&#`.
fn numbered(text: &[char]) -> Option<(char, &[char])> {
    match after(text, 'x').or(after(text, 'X')) {
        Some(digits) => by_digits(digits, 16, 6),
        None => by_digits(text, 10, 7),
    }
}

/// The character of these digits, of which there are 1 to `most`.
fn by_digits(text: &[char], radix: u32, most: usize) -> Option<(char, &[char])> {
    let rest = if radix == 16 {
        skip(text, |digit| digit.is_ascii_hexdigit())
    } else {
        skip(text, |digit| digit.is_ascii_digit())
    };
    let digits = front(text, rest);
    if digits.is_empty() || digits.len() > most {
        return None;
    }
    let mut code: u32 = 0;
    for digit in digits {
        let value = digit.to_digit(16).unwrap_or(0);
        code = code.saturating_mul(radix).saturating_add(value);
    }
    let character = char::from_u32(code).unwrap_or('\u{fffd}');
    Some((shown(character), after(rest, ';')?))
}
