//! Addresses that stand between `<` and `>`, and show themselves.
use crate::scanning::{after, first, front, skip};

/// An address that was found: whether it is one of mail, its characters, and what is left.
#[derive(Clone, Copy)]
pub(crate) struct Shown<'a> {
    pub is_mail: bool,
    pub address: &'a [char],
    pub rest: &'a [char],
}

/// The address after `<`.
pub(crate) fn shown_address(text: &[char]) -> Option<Shown<'_>> {
    match web(text) {
        Some(end) => up_to(text, end, false),
        None => up_to(text, mail(text)?, true),
    }
}

/// An address up to here, where `>` follows.
fn up_to<'a>(text: &'a [char], end: &'a [char], is_mail: bool) -> Option<Shown<'a>> {
    let rest = after(end, '>')?;
    Some(Shown {
        is_mail,
        address: front(text, end),
        rest,
    })
}

/// What is left after an address with a scheme of 2 to 32 characters.
fn web(text: &[char]) -> Option<&[char]> {
    if !first(text)?.is_ascii_alphabetic() {
        return None;
    }
    let named = skip(text, |letter| {
        letter.is_ascii_alphanumeric() || matches!(letter, '+' | '.' | '-')
    });
    let length = front(text, named).len();
    if length < 2 || length > 32 {
        return None;
    }
    let end = skip(after(named, ':')?, |character| {
        character > ' ' && character != '<' && character != '>'
    });
    after(end, '>')?;
    Some(end)
}

/// What is left after an address of mail.
fn mail(text: &[char]) -> Option<&[char]> {
    let named = skip(text, is_of_mail_name);
    if named.len() == text.len() {
        return None;
    }
    let mut rest = label(after(named, '@')?)?;
    for _ in 0..text.len() {
        match after(rest, '.') {
            Some(others) => rest = label(others)?,
            None => break,
        }
    }
    Some(rest)
}

/// Whether a character may stand before the `@`.
fn is_of_mail_name(character: char) -> bool {
    character.is_ascii_alphanumeric()
        || matches!(
            character,
            '.' | '!'
                | '#'
                | '$'
                | '%'
                | '&'
                | '\''
                | '*'
                | '+'
                | '/'
                | '='
                | '?'
                | '^'
                | '_'
                | '`'
                | '{'
                | '|'
                | '}'
                | '~'
                | '-'
        )
}

/// What is left after a part of a host's name, of 1 to 63 characters.
fn label(text: &[char]) -> Option<&[char]> {
    let rest = skip(text, |letter| {
        letter.is_ascii_alphanumeric() || letter == '-'
    });
    let name = front(text, rest);
    let is_named = name.len() <= 63 && first(name)? != '-' && name.last().copied()? != '-';
    if is_named { Some(rest) } else { None }
}
