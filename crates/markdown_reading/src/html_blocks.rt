//! Blocks of HTML.
use crate::block_starts::is_blank_line;
use crate::characters::{is_space, shown};
use crate::entities::entity;
use crate::scanning::{after, after_name, after_word, first, from_word, skip, trimmed};
use crate::tags::{Missing, closing, opening};
use std::alloc::{AllocError, Global};

/// What a block of HTML ends with.
#[derive(Clone, Copy, PartialEq, Eq)]
pub(crate) enum End {
    /// The line with one of the tags that end a program, a style or a text as it stands.
    Tag,
    /// The line with this word.
    Word(&'static str),
    /// The line before a blank one.
    Blank,
}

/// The elements of which the text is as it stands.
static RAW: [&str; 4] = ["script", "pre", "style", "textarea"];

/// The elements that begin a block.
static BLOCKS: [&str; 62] = [
    "address",
    "article",
    "aside",
    "base",
    "basefont",
    "blockquote",
    "body",
    "caption",
    "center",
    "col",
    "colgroup",
    "dd",
    "details",
    "dialog",
    "dir",
    "div",
    "dl",
    "dt",
    "fieldset",
    "figcaption",
    "figure",
    "footer",
    "form",
    "frame",
    "frameset",
    "h1",
    "h2",
    "h3",
    "h4",
    "h5",
    "h6",
    "head",
    "header",
    "hr",
    "html",
    "iframe",
    "legend",
    "li",
    "link",
    "main",
    "menu",
    "menuitem",
    "nav",
    "noframes",
    "ol",
    "optgroup",
    "option",
    "p",
    "param",
    "search",
    "section",
    "summary",
    "table",
    "tbody",
    "td",
    "tfoot",
    "th",
    "thead",
    "title",
    "tr",
    "track",
    "ul",
];

/// What ends the block of HTML that a line begins, if it begins one.
pub(crate) fn html_end(line: &[char], is_in_paragraph: bool) -> Option<End> {
    let rest = after(line, '<')?;
    if begins_raw(rest) {
        return Some(End::Tag);
    }
    let special = special_end(rest);
    if special.is_some() {
        return special;
    }
    if begins_block(rest) || !is_in_paragraph && is_tag_alone(rest) {
        return Some(End::Blank);
    }
    None
}

/// Whether after `<` stands an element of which the text is as it stands.
fn begins_raw(text: &[char]) -> bool {
    for name in &RAW {
        if after_name(text, name).is_some_and(is_after_name) {
            return true;
        }
    }
    false
}

/// Whether after `<` stands the tag of an element that begins a block.
fn begins_block(text: &[char]) -> bool {
    let named = after(text, '/').unwrap_or(text);
    for name in &BLOCKS {
        if after_name(named, name).is_some_and(ends_block_name) {
            return true;
        }
    }
    false
}

/// What ends a comment, an instruction, a declaration or a part of `CDATA` after `<`.
fn special_end(text: &[char]) -> Option<End> {
    if after_word(text, "!--").is_some() {
        return Some(End::Word("-->"));
    }
    if after(text, '?').is_some() {
        return Some(End::Word("?>"));
    }
    if after_word(text, "![CDATA[").is_some() {
        return Some(End::Word("]]>"));
    }
    if first(after(text, '!')?)?.is_ascii_alphabetic() {
        return Some(End::Word(">"));
    }
    None
}

/// Whether the name of an element ends here.
fn is_after_name(text: &[char]) -> bool {
    first(text).is_none_or(|next| is_space(next) || next == '>')
}

/// Whether the name of an element that begins a block ends here.
fn ends_block_name(text: &[char]) -> bool {
    is_after_name(text) || after_word(text, "/>").is_some()
}

/// Whether nothing but a tag stands after `<`.
fn is_tag_alone(text: &[char]) -> bool {
    let found = match after(text, '/') {
        Some(rest) => closing(rest),
        None => opening(text),
    };
    found.is_some_and(|(_, rest)| is_blank_line(rest))
}

/// Whether a line ends a block of HTML.
pub(crate) fn is_html_end(line: &[char], end: End) -> bool {
    match end {
        End::Tag => has_raw_end(line),
        End::Word(word) => from_word(line, word).is_some(),
        End::Blank => false,
    }
}

/// Whether the end of an element stands in a line of which the text is as it stands.
fn has_raw_end(line: &[char]) -> bool {
    for i in 0..line.len() {
        if let Some(rest) = after_word(&line[i..], "</") {
            if RAW.iter().any(|name| after_name(rest, name).is_some_and(|rest| after(
                rest, '>',
            ).is_some()))
            {
                return true;
            }
        }
    }
    false
}

/// Whether a block of HTML is our mark of an empty paragraph.
pub(crate) fn is_empty_mark(source: &[char]) -> bool {
    let text = trimmed(source, is_space);
    after_word(text, "<!-- -->").is_some_and(|rest| rest.is_empty())
}

/// Whether a block of HTML is a program or a style, of which nothing is text.
fn is_program(source: &[char]) -> bool {
    let Some(rest) = after(skip(source, is_space), '<') else {
        return false;
    };
    ["script", "style"]
        .iter()
        .any(|name| after_name(rest, name).is_some_and(is_after_name))
}

/// The text of a block of HTML: its tags go, and white space becomes a space. An error is out of
/// memory (1).
pub(crate) fn html_text(alloc: Global, source: &[char]) -> Result<Vec<char>, AllocError> {
    let mut text = Vec::new(alloc);
    if is_program(source) {
        return Ok(text);
    }
    let mut missing = Missing::none();
    let mut rest = source;
    for _ in 0..source.len() {
        let Some((character, others)) = rest.split_first() else {
            break;
        };
        rest = put_part(*character, others, &mut missing, &mut text)?;
    }
    if text.last() == Some(&' ') {
        text.pop();
    }
    Ok(text)
}

/// Puts a character of a block of HTML, or leaves out a tag, and gives what is left.
fn put_part<'a>(
    character: char,
    rest: &'a [char],
    missing: &mut Missing,
    text: &mut Vec<char>,
) -> Result<&'a [char], AllocError> {
    if character == '<' {
        if let Some((_, others)) = missing.tag(rest) {
            return Ok(others);
        }
    }
    if character == '&' {
        if let Some((found, others)) = entity(rest) {
            text.push(found)?;
            return Ok(others);
        }
    }
    if !is_space(character) {
        text.push(shown(character))?;
    } else if text.last().is_some_and(|last| *last != ' ') {
        text.push(' ')?;
    }
    Ok(rest)
}
