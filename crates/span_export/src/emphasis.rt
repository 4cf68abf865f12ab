//! Emphasis in Markdown: text between stars.
ghost use Rattle.std.specs.Prelude.{◌≡◌, ◌≤◌, ◌<◌, OnOk, length};
ghost use Rattle.span_export.specs.Markdown.{is_letter, end_of, start_of, is_apart};
ghost use Rattle.span_export.specs.Markdown.{add_open, add_close, add_core, add_body};
ghost use Rattle.span_export.specs.Markdown.{add_starred};

use crate::before::Before;
use crate::draft::Draft;
use crate::markdown_text::add_characters;
use std::alloc::AllocError;

/// Whether a character is a letter or a digit, and none of the symbols that some tables of
/// characters have among these.
fn is_letter(character: char) -> bool
    ensures { result ≡ is_letter character }
{
    let code = character as u32;
    character.is_alphanumeric() && (code < 0x2000 || code >= 0x3000 && code < 0x1_F000)
}

/// How many characters stand up to the last that is no white space.
fn end_of(characters: &[char]) -> usize
    ensures value { result ≡ end_of characters.now }
    ensures within { result ≤ length characters.now }
{
    let mut end = 0;
    for (i, character) in characters.iter().enumerate() {
        if !character.is_whitespace() {
            end = i + 1;
        }
    }
    end
}

/// How many characters of white space stand in front.
fn start_of(characters: &[char]) -> usize
    ensures value { result ≡ start_of characters.now }
    ensures within { result ≤ length characters.now }
{
    for (i, character) in characters.iter().enumerate() {
        if !character.is_whitespace() {
            return i;
        }
    }
    characters.len()
}

/// Whether stars before this character have to be kept apart from what stands there.
fn is_apart(before: Before, first: char) -> bool
    ensures { result ≡ is_apart before first }
{
    before.is_end() || before.is_text() && !is_letter(first)
}

/// Writes stars that begin emphasis.
fn add_open(marks: &[u8], first: char, draft: &mut Draft) -> Result<(), AllocError>
    ensures { OnOk result (draft.new ≡ add_open marks.now first draft.old) }
{
    let apart = is_apart(draft.before(), first);
    draft.write_apart(apart, marks, Before::Tag)
}

/// Writes stars that end emphasis.
fn add_close(marks: &[u8], last: char, draft: &mut Draft) -> Result<(), AllocError>
    ensures { OnOk result (draft.new ≡ add_close marks.now last draft.old) }
{
    let before = if is_letter(last) {
        Before::LetterEnd
    } else {
        Before::SignEnd
    };
    draft.write(marks, before)
}

/// Writes text between stars, which has no white space at its ends; nothing of no text.
fn add_core(marks: &[u8], core: &[char], draft: &mut Draft) -> Result<(), AllocError>
    ensures { OnOk result (draft.new ≡ add_core marks.now core.now draft.old) }
{
    if core.is_empty() {
        return Ok(());
    }
    add_open(marks, core[0], draft)?;
    add_characters(core, draft)?;
    add_close(marks, core[core.len() - 1], draft)
}

/// Writes text up to its last character that is no white space: its white space in front, and then
/// the rest between stars.
fn add_body(marks: &[u8], body: &[char], draft: &mut Draft) -> Result<(), AllocError>
    ensures { OnOk result (draft.new ≡ add_body marks.now body.now draft.old) }
{
    let (leading, core) = body.split_at(start_of(body));
    add_characters(leading, draft)?;
    add_core(marks, core, draft)
}

/// Writes text between stars, outside of which stands the white space at its ends: stars beside
/// white space would begin and end no emphasis.
pub(crate) fn add_starred(marks: &[u8], text: &[char], draft: &mut Draft) -> Result<(), AllocError>
    ensures { OnOk result (draft.new ≡ add_starred marks.now text.now draft.old) }
{
    let (body, trailing) = text.split_at(end_of(text));
    add_body(marks, body, draft)?;
    add_characters(trailing, draft)
}
