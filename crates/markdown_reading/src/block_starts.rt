//! What a line may begin.
use crate::characters::is_blank;
use crate::scanning::{after, count_of, first, front, skip, trimmed, trimmed_end};

/// Fences around code.
#[derive(Clone, Copy, PartialEq, Eq)]
pub(crate) struct Fence {
    pub mark: char,
    pub length: usize,
    /// How many spaces stand before it.
    pub indent: usize,
}

/// Whether a line has nothing but spaces.
pub(crate) fn is_blank_line(line: &[char]) -> bool {
    line.iter().all(|character| is_blank(*character))
}

/// The text of a heading with number signs, if this is one.
pub(crate) fn heading(line: &[char]) -> Option<&[char]> {
    let depth = count_of(line, '#');
    let rest = line.get(depth..)?;
    if depth < 1 || depth > 6 || !first(rest).is_none_or(is_blank) {
        return None;
    }
    let text = trimmed(rest, is_blank);
    let bare = trimmed_end(text, |character| character == '#');
    if bare.last().copied().is_none_or(is_blank) {
        return Some(trimmed_end(bare, is_blank));
    }
    Some(text)
}

/// Whether a line below a paragraph makes it a heading.
pub(crate) fn is_underline(line: &[char]) -> bool {
    let text = trimmed_end(line, is_blank);
    match first(text) {
        Some(mark) if mark == '=' || mark == '-' => text.len() == count_of(text, mark),
        _ => false,
    }
}

/// Whether a line is one between parts.
pub(crate) fn is_rule(line: &[char]) -> bool {
    let Some(mark) = first(line) else {
        return false;
    };
    if !matches!(mark, '*' | '-' | '_') {
        return false;
    }
    let count = line.iter().filter(|character| **character == mark).count();
    count >= 3
        && line
            .iter()
            .all(|character| *character == mark || is_blank(*character))
}

/// The fence that begins code, if this is one.
pub(crate) fn fence_of(line: &[char], indent: usize) -> Option<Fence> {
    let mark = first(line)?;
    let length = count_of(line, mark);
    if !matches!(mark, '`' | '~') || length < 3 {
        return None;
    }
    if mark == '`' && line.get(length..)?.contains(&'`') {
        return None;
    }
    Some(Fence {
        mark,
        length,
        indent,
    })
}

/// Whether a line ends the code of a fence.
pub(crate) fn is_fence_end(line: &[char], fence: Fence) -> bool {
    let text = trimmed_end(line, is_blank);
    let length = count_of(text, fence.mark);
    length >= fence.length && length == text.len()
}

/// What is left after the mark of a quote, and the space after it.
pub(crate) fn quoted(line: &[char]) -> Option<&[char]> {
    let rest = after(line, '>')?;
    Some(after(rest, ' ').unwrap_or(rest))
}

/// The mark of a list's item.
#[derive(Clone, Copy)]
pub(crate) struct Marker<'a> {
    /// How many characters it has, with the spaces after it that are part of it.
    pub width: usize,
    /// Whether it may stand right below a paragraph.
    pub may_interrupt: bool,
    pub rest: &'a [char],
}

/// The mark of a list's item, if the line begins with one.
pub(crate) fn marker_of(line: &[char]) -> Option<Marker<'_>> {
    let (after_mark, is_first) = marked(line)?;
    let spaces = count_of(after_mark, ' ');
    let length = front(line, after_mark).len();
    let text = skip(after_mark, is_blank);
    if text.is_empty() {
        return Some(Marker {
            width: length.saturating_add(1),
            may_interrupt: false,
            rest: text,
        });
    }
    if spaces == 0 {
        return None;
    }
    let taken = if spaces > 4 { 1 } else { spaces };
    Some(Marker {
        width: length.saturating_add(taken),
        may_interrupt: is_first,
        rest: after_mark.get(taken..).unwrap_or(after_mark),
    })
}

/// What is left after a bullet, or a number, and whether that is 1 or none.
fn marked(line: &[char]) -> Option<(&[char], bool)> {
    for bullet in ['-', '+', '*'] {
        if let Some(rest) = after(line, bullet) {
            return Some((rest, true));
        }
    }
    let rest = skip(line, |character| character.is_ascii_digit());
    let number = front(line, rest);
    if number.is_empty() || number.len() > 9 {
        return None;
    }
    let is_first = number.len() == 1 && first(number) == Some('1');
    Some((after(rest, '.').or(after(rest, ')'))?, is_first))
}
