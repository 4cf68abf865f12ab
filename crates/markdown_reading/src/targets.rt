//! Where a link leads: what stands in parentheses after its text.
use crate::characters::{is_space, shown};
use crate::entities::entity;
use crate::scanning::{after, first, front, skip};
use std::alloc::{AllocError, Global};

/// How deep parentheses may stand in an address.
const DEEPEST: usize = 32;

/// What is left after an escaped character, or after any other one.
fn after_one(text: &[char]) -> Option<&[char]> {
    let (character, rest) = text.split_first()?;
    if *character == '\\' && first(rest).is_some_and(|next| next.is_ascii_punctuation()) {
        return rest.get(1..);
    }
    Some(rest)
}

/// The address after `](`, as it is written, and what is left after the `)`.
pub(crate) fn target(text: &[char]) -> Option<(&[char], &[char])> {
    let begin = skip(text, is_space);
    let (address, rest) = match after(begin, '<') {
        Some(inner) => {
            let end = pointed_end(inner)?;
            (front(inner, end), after(end, '>')?)
        }
        None => {
            let end = bare_end(begin)?;
            (front(begin, end), end)
        }
    };
    let spaced = skip(rest, is_space);
    let titled = if spaced.len() < rest.len() {
        after_title(spaced).unwrap_or(spaced)
    } else {
        rest
    };
    Some((address, after(skip(titled, is_space), ')')?))
}

/// What is left at the end of an address between `<` and `>`.
fn pointed_end(text: &[char]) -> Option<&[char]> {
    let mut rest = text;
    for _ in 0..text.len() {
        match first(rest)? {
            '>' => return Some(rest),
            '<' | '\n' => return None,
            _ => rest = after_one(rest)?,
        }
    }
    None
}

/// What is left at the end of an address that stands bare: its parentheses are paired.
fn bare_end(text: &[char]) -> Option<&[char]> {
    let mut rest = text;
    let mut depth: usize = 0;
    for _ in 0..text.len() {
        match first(rest)? {
            '(' if depth >= DEEPEST => return None,
            '(' => depth = depth.saturating_add(1),
            ')' if depth == 0 => return Some(rest),
            ')' => depth = depth.saturating_sub(1),
            character if character <= ' ' => break,
            _ => {}
        }
        rest = after_one(rest)?;
    }
    if depth == 0 && rest.len() < text.len() {
        Some(rest)
    } else {
        None
    }
}

/// What is left after a title.
fn after_title(text: &[char]) -> Option<&[char]> {
    let (opening, inner) = text.split_first()?;
    let closing = match *opening {
        '"' => '"',
        '\'' => '\'',
        '(' => ')',
        _ => return None,
    };
    let mut rest = inner;
    for _ in 0..inner.len() {
        let character = first(rest)?;
        if character == closing {
            return after(rest, closing);
        }
        if character == '(' && closing == ')' {
            return None;
        }
        rest = after_one(rest)?;
    }
    None
}

/// An address without its escapes.
pub(crate) fn unescaped(alloc: Global, text: &[char]) -> Result<String, AllocError> {
    let mut address = String::new(alloc);
    let mut rest = text;
    for _ in 0..text.len() {
        let Some((character, others)) = one(rest) else {
            break;
        };
        address.push(shown(character))?;
        rest = others;
    }
    Ok(address)
}

/// The character in front, which may be escaped or written by its number, and what is left.
fn one(text: &[char]) -> Option<(char, &[char])> {
    let (character, rest) = text.split_first()?;
    if *character == '&' {
        if let Some(found) = entity(rest) {
            return Some(found);
        }
    }
    if *character == '\\' {
        if let Some((next, others)) = rest.split_first() {
            if next.is_ascii_punctuation() {
                return Some((*next, others));
            }
        }
    }
    Some((*character, rest))
}
