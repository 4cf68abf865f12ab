//! What is edited at the ends of a link, each time the same.
use op_model::{Change, CommentId, EditText, Mark, MarkKey, Url};
use std::alloc::Global;
use std::num::NonZeroU32;

/// The characters that are marked at once.
const MARKED: u32 = 20;

/// The change of this number in a text of `long` characters: of eight changes five put in a word,
/// two remove a character and one sets or takes away a mark. A text without characters gets a word.
pub(crate) fn change(alloc: Global, word: &str, number: u32, long: u32) -> Option<Change> {
    let at = spread(number) % long.max(1);
    match number % 8 {
        3 | 6 if long > 0 => Some(Change::Delete {
            at,
            count: NonZeroU32::MIN,
        }),
        5 if long > 0 => marking(alloc, number / 8, at, long.min(at.saturating_add(MARKED))),
        _ => insert(alloc, at, word),
    }
}

/// The insert of a text before the character at a place.
fn insert(alloc: Global, at: u32, text: &str) -> Option<Change> {
    let characters = text.chars().collect(alloc).ok()?;
    Some(Change::Insert {
        at,
        text: EditText::new(characters)?,
    })
}

/// Strong, a link, a comment, or strong taken away, from a place to another.
fn marking(alloc: Global, number: u32, from: u32, to: u32) -> Option<Change> {
    let mark = match number % 4 {
        0 => Mark::Strong,
        1 => Mark::Link(Url::new(String::from_str(alloc, "u").ok()?)?),
        2 => Mark::Comment(CommentId::read([7; 16])),
        _ => {
            return Some(Change::Unmark {
                from,
                to,
                key: MarkKey::Strong,
            });
        }
    };
    Some(Change::Mark { from, to, mark })
}

/// Numbers that follow one another, far apart.
fn spread(number: u32) -> u32 {
    number.wrapping_mul(2_654_435_761)
}
