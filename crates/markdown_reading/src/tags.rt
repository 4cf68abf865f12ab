//! Tags of HTML within a line.
use crate::characters::is_space;
use crate::scanning::{after, after_name, after_word, first, from_word, front, skip};

/// What a tag is.
#[derive(Clone, Copy, PartialEq, Eq)]
pub(crate) enum Tag {
    /// One that says nothing here: `<span>` or `</span>`.
    Nothing,
    /// The begin of a comment on text.
    Comment,
    /// Any other.
    Other,
}

/// Ends that are known not to come any more, so that they aren't looked for again.
#[derive(Clone, Copy)]
pub(crate) struct Missing {
    comment: bool,
    instruction: bool,
    declaration: bool,
    data: bool,
}

impl Missing {
    /// None is known yet.
    pub(crate) fn none() -> Missing {
        Missing {
            comment: false,
            instruction: false,
            declaration: false,
            data: false,
        }
    }

    /// The tag after `<`, and what is left after it.
    pub(crate) fn tag<'a>(&mut self, text: &'a [char]) -> Option<(Tag, &'a [char])> {
        if let Some(rest) = after(text, '/') {
            return closing(rest);
        }
        if let Some(rest) = after(text, '?') {
            return other(found(&mut self.instruction, rest, "?>"));
        }
        match after(text, '!') {
            Some(rest) => other(self.declared(rest)),
            None => opening(text),
        }
    }

    /// What is left after a comment, a declaration or a part of `CDATA`, of which `<!` was read.
    fn declared<'a>(&mut self, text: &'a [char]) -> Option<&'a [char]> {
        if let Some(rest) = after_word(text, "--") {
            return after(rest, '>')
                .or(after_word(rest, "->"))
                .or_else(|| found(&mut self.comment, rest, "-->"));
        }
        if let Some(rest) = after_word(text, "[CDATA[") {
            return found(&mut self.data, rest, "]]>");
        }
        if first(text).is_some_and(|letter| letter.is_ascii_alphabetic()) {
            return found(&mut self.declaration, text, ">");
        }
        None
    }
}

/// What is left after an end, which isn't looked for where it is known to be missing.
fn found<'a>(is_missing: &mut bool, text: &'a [char], end: &str) -> Option<&'a [char]> {
    if *is_missing {
        return None;
    }
    match from_word(text, end) {
        Some(rest) => after_word(rest, end),
        None => {
            *is_missing = true;
            None
        }
    }
}

/// A tag that isn't looked into.
fn other(rest: Option<&[char]>) -> Option<(Tag, &[char])> {
    match rest {
        Some(rest) => Some((Tag::Other, rest)),
        None => None,
    }
}

/// What is left after the name of a tag.
pub(crate) fn after_tag_name(text: &[char]) -> Option<&[char]> {
    if !first(text)?.is_ascii_alphabetic() {
        return None;
    }
    Some(skip(text, |letter| {
        letter.is_ascii_alphanumeric() || letter == '-'
    }))
}

/// Whether a name is `span`.
fn is_span(name: &[char]) -> bool {
    name.len() == 4 && after_name(name, "span").is_some()
}

/// The tag after `</`.
pub(crate) fn closing(text: &[char]) -> Option<(Tag, &[char])> {
    let rest = after_tag_name(text)?;
    let kind = if is_span(front(text, rest)) {
        Tag::Nothing
    } else {
        Tag::Other
    };
    Some((kind, after(skip(rest, is_space), '>')?))
}

/// The tag after `<`, where it begins an element.
pub(crate) fn opening(text: &[char]) -> Option<(Tag, &[char])> {
    let named = after_tag_name(text)?;
    let mut rest = named;
    for _ in 0..named.len() {
        match attribute(rest) {
            Some(others) => rest = others,
            None => break,
        }
    }
    let end = skip(rest, is_space);
    let kind = if is_span(front(text, named)) {
        kind_of_span(front(named, rest))
    } else {
        Tag::Other
    };
    Some((kind, after(after(end, '/').unwrap_or(end), '>')?))
}

/// What the tag of a `span` is, by its attributes.
fn kind_of_span(attributes: &[char]) -> Tag {
    if attributes.is_empty() {
        return Tag::Nothing;
    }
    match after_name(skip(attributes, is_space), "data-comment=") {
        Some(_) => Tag::Comment,
        None => Tag::Other,
    }
}

/// What is left after an attribute, with the space before it.
fn attribute(text: &[char]) -> Option<&[char]> {
    if !first(text).is_some_and(is_space) {
        return None;
    }
    let name = skip(text, is_space);
    if !first(name).is_some_and(begins_attribute) {
        return None;
    }
    let named = skip(name, is_of_attribute);
    match after(skip(named, is_space), '=') {
        Some(value) => after_value(skip(value, is_space)),
        None => Some(named),
    }
}

/// Whether the name of an attribute may begin so.
fn begins_attribute(character: char) -> bool {
    character.is_ascii_alphabetic() || character == '_' || character == ':'
}

/// Whether a character may stand in the name of an attribute.
fn is_of_attribute(character: char) -> bool {
    character.is_ascii_alphanumeric() || matches!(character, '_' | ':' | '.' | '-')
}

/// What is left after the value of an attribute.
fn after_value(text: &[char]) -> Option<&[char]> {
    for quote in ['"', '\''] {
        if let Some(inner) = after(text, quote) {
            return after(skip(inner, |character| character != quote), quote);
        }
    }
    let rest = skip(text, |character| {
        character > ' ' && !matches!(character, '"' | '\'' | '=' | '<' | '>' | '`')
    });
    if rest.len() == text.len() {
        return None;
    }
    Some(rest)
}
