//! Steps over the front of a text. Each gives what is left after it.

/// What is left after this character, if it stands in front.
pub(crate) fn after(text: &[char], wanted: char) -> Option<&[char]> {
    match text.split_first() {
        Some((first, rest)) if *first == wanted => Some(rest),
        _ => None,
    }
}

/// What is left after these characters, if they stand in front.
pub(crate) fn after_word<'a>(text: &'a [char], word: &str) -> Option<&'a [char]> {
    let mut rest = text;
    for wanted in word.chars() {
        rest = after(rest, wanted)?;
    }
    Some(rest)
}

/// What is left after these characters, in small or great letters, if they stand in front.
pub(crate) fn after_name<'a>(text: &'a [char], name: &str) -> Option<&'a [char]> {
    let mut rest = text;
    for wanted in name.chars() {
        let (first, others) = rest.split_first()?;
        if !first.eq_ignore_ascii_case(&wanted) {
            return None;
        }
        rest = others;
    }
    Some(rest)
}

/// What is left after all characters in front of which this holds.
pub(crate) fn skip<F: Fn(char) -> bool + Drop>(text: &[char], is_skipped: F) -> &[char]
    requires { F.IsAlwaysCallable is_skipped }
{
    for (i, character) in text.iter().enumerate() {
        if !is_skipped(*character) {
            return &text[i..];
        }
    }
    &text[text.len()..]
}

/// What stands in front of what is left.
pub(crate) fn front<'a>(text: &'a [char], rest: &[char]) -> &'a [char] {
    text.get(..text.len().saturating_sub(rest.len()))
        .unwrap_or(text)
}

/// The character in front.
pub(crate) fn first(text: &[char]) -> Option<char> {
    text.first().copied()
}

/// The character before what is left.
pub(crate) fn before(text: &[char], rest: &[char]) -> Option<char> {
    front(text, rest).last().copied()
}

/// What is left from the first place on at which this word stands.
pub(crate) fn from_word<'a>(text: &'a [char], word: &str) -> Option<&'a [char]> {
    for i in 0..text.len() {
        let rest = &text[i..];
        if after_word(rest, word).is_some() {
            return Some(rest);
        }
    }
    None
}

/// A text without the characters at its ends for which this holds.
pub(crate) fn trimmed<F: Fn(char) -> bool + Copy>(text: &[char], is_cut: F) -> &[char]
    requires { F.IsAlwaysCallable is_cut }
{
    trimmed_end(skip(text, is_cut), is_cut)
}

/// A text without the characters at its end for which this holds.
pub(crate) fn trimmed_end<F: Fn(char) -> bool + Copy>(text: &[char], is_cut: F) -> &[char]
    requires { F.IsAlwaysCallable is_cut }
{
    let mut end = 0;
    for (i, character) in text.iter().enumerate() {
        if !is_cut(*character) {
            end = i + 1;
        }
    }
    text.get(..end).unwrap_or(text)
}

/// How many times a character stands in front.
pub(crate) fn count_of(text: &[char], character: char) -> usize {
    let rest = skip(text, |other| other == character);
    text.len().saturating_sub(rest.len())
}
