//! Values of fields.
use std::fmt::{self, Display, Formatter};

/// A text as the value of a field: as it is where it has visible ASCII characters alone, without
/// `"`, `=` and `\`; else in double quotes, where these three and what isn't visible stand as
/// `\u{..}`, but a space.
#[derive(Clone, Copy)]
pub struct Quoted<'a>(pub &'a str);

impl<'a> Display for Quoted<'a> {
    fn fmt<W: fmt::Write>(&self, f: &mut Formatter<W>) -> fmt::Result {
        let Quoted(text) = self;
        if !text.is_empty() && text.chars().all(is_plain) {
            return write!(f, "{text}");
        }
        f.write_str("\"")?;
        for letter in text.chars() {
            if letter == ' ' || is_plain(letter) {
                f.write_char(letter)?;
            } else {
                write!(f, "\\u{{{:x}}}", letter as u32)?;
            }
        }
        f.write_str("\"")
    }
}

/// Whether a character stands for itself without quotes.
fn is_plain(letter: char) -> bool {
    letter.is_ascii_graphic() && !matches!(letter, '"' | '=' | '\\')
}
