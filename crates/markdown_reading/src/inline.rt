//! The pieces of a paragraph.
use crate::addresses::{Shown, shown_address};
use crate::brackets::Brackets;
use crate::characters::{is_blank, shown};
use crate::code_spans::{Unclosed, is_gap};
use crate::dropped::{Dropped, Kind};
use crate::entities::entity;
use crate::pieces::{Bracket, Piece};
use crate::runs::Run;
use crate::scanning::{after, before, count_of, first, front, skip};
use crate::tags::{Missing, Tag};
use op_model::Url;
use std::alloc::{AllocError, Global};

/// What was read of a paragraph, and what is known of the rest.
#[derive(Drop)]
pub(crate) struct Inline {
    pub pieces: Vec<Piece>,
    pub runs: Vec<Run>,
    pub brackets: Brackets,
    pub dropped: Dropped,
    missing: Missing,
    unclosed: Unclosed,
}

impl Inline {
    /// The pieces of a paragraph. An error is out of memory (1).
    pub(crate) fn read(
        alloc: Global,
        text: &[char],
        dropped: Dropped,
    ) -> Result<Inline, AllocError> {
        let mut inline = Inline {
            pieces: Vec::new(alloc),
            runs: Vec::new(alloc),
            brackets: Brackets::new(alloc),
            dropped,
            missing: Missing::none(),
            unclosed: Unclosed::none(),
        };
        let mut rest = text;
        for _ in 0..text.len() {
            let before = before(text, rest);
            let Some((character, others)) = rest.split_first() else {
                break;
            };
            rest = inline.step(alloc, before, *character, others)?;
        }
        Ok(inline)
    }

    /// Takes one piece, and gives what is left.
    fn step<'a>(
        &mut self,
        alloc: Global,
        before: Option<char>,
        character: char,
        rest: &'a [char],
    ) -> Result<&'a [char], AllocError> {
        match character {
            '\\' => self.escaped(rest),
            '&' => self.referred(rest),
            '`' => self.code(rest),
            '<' => self.pointed(alloc, rest),
            '*' | '_' => self.run(before, character, rest),
            '[' => self.open(Bracket::Text, rest),
            '!' => match after(rest, '[') {
                Some(others) => self.open(Bracket::ImageText, others),
                None => self.show('!', rest),
            },
            ']' => self.close(alloc, rest),
            ' ' | '\t' => self.spaces(character, rest),
            '\n' => self.show(' ', rest),
            _ => self.show(shown(character), rest),
        }
    }

    /// Shows a character.
    fn show<'a>(&mut self, character: char, rest: &'a [char]) -> Result<&'a [char], AllocError> {
        self.pieces.push(Piece::Shown(character))?;
        Ok(rest)
    }

    /// Shows characters.
    fn show_all(&mut self, characters: &[char]) -> Result<(), AllocError> {
        for character in characters {
            self.pieces.push(Piece::Shown(shown(*character)))?;
        }
        Ok(())
    }

    /// Breaks the line.
    fn break_line<'a>(&mut self, rest: &'a [char]) -> Result<&'a [char], AllocError> {
        self.dropped.count(Kind::Break);
        self.show('\n', rest)
    }

    /// What a backslash stands before.
    fn escaped<'a>(&mut self, rest: &'a [char]) -> Result<&'a [char], AllocError> {
        match rest.split_first() {
            Some(('\n', others)) => self.break_line(others),
            Some((next, others)) if next.is_ascii_punctuation() => self.show(*next, others),
            _ => self.show('\\', rest),
        }
    }

    /// A character by its name or number.
    fn referred<'a>(&mut self, rest: &'a [char]) -> Result<&'a [char], AllocError> {
        match entity(rest) {
            Some((character, others)) => self.show(character, others),
            None => self.show('&', rest),
        }
    }

    /// Spaces: those at the end of a line aren't shown, and two of them break it.
    fn spaces<'a>(&mut self, space: char, rest: &'a [char]) -> Result<&'a [char], AllocError> {
        let others = skip(rest, is_blank);
        let spaces = front(rest, others);
        let Some(next) = after(others, '\n') else {
            self.pieces.push(Piece::Shown(space))?;
            self.show_all(spaces)?;
            return Ok(others);
        };
        let before_last = spaces.iter().rev().nth(1).copied().unwrap_or(space);
        if spaces.last().copied() == Some(' ') && before_last == ' ' {
            return self.break_line(next);
        }
        self.show(' ', next)
    }

    /// Code after a backtick.
    fn code<'a>(&mut self, rest: &'a [char]) -> Result<&'a [char], AllocError> {
        let more = count_of(rest, '`');
        let inner = rest.get(more..).unwrap_or(rest);
        let Some((code, others)) = self.unclosed.code(inner, more.saturating_add(1)) else {
            self.pieces.push(Piece::Shown('`'))?;
            self.show_all(front(rest, inner))?;
            return Ok(inner);
        };
        self.dropped.count(Kind::Code);
        for character in code {
            let character = if is_gap(*character) {
                ' '
            } else {
                shown(*character)
            };
            self.pieces.push(Piece::Shown(character))?;
        }
        Ok(others)
    }

    /// An address or a tag after `<`.
    fn pointed<'a>(&mut self, alloc: Global, rest: &'a [char]) -> Result<&'a [char], AllocError> {
        if let Some(found) = shown_address(rest) {
            self.address(alloc, found)?;
            return Ok(found.rest);
        }
        let Some((tag, others)) = self.missing.tag(rest) else {
            return self.show('<', rest);
        };
        match tag {
            Tag::Nothing => {}
            Tag::Comment => self.dropped.count(Kind::Comment),
            Tag::Other => self.dropped.count(Kind::Html),
        }
        Ok(others)
    }

    /// A link that shows its own address.
    fn address(&mut self, alloc: Global, found: Shown<'_>) -> Result<(), AllocError> {
        let mut address = String::new(alloc);
        if found.is_mail {
            address.push_str("mailto:")?;
        }
        for character in found.address {
            address.push(shown(*character))?;
        }
        let url = Url::new(address);
        if url.is_none() {
            self.dropped.count(Kind::Link);
        }
        let number = self.brackets.add(Bracket::Link(url))?;
        self.pieces.push(Piece::Open(number))?;
        self.show_all(found.address)?;
        self.pieces.push(Piece::Close(number))?;
        Ok(())
    }

    /// A run of stars or underscores.
    fn run<'a>(
        &mut self,
        before: Option<char>,
        mark: char,
        rest: &'a [char],
    ) -> Result<&'a [char], AllocError> {
        let more = count_of(rest, mark);
        let others = rest.get(more..).unwrap_or(rest);
        let run = Run::new(mark, more.saturating_add(1), before, first(others));
        let number = self.runs.len();
        self.runs.push(run)?;
        self.pieces.push(Piece::Run(number))?;
        Ok(others)
    }

    /// A bracket that may begin a link or an image.
    fn open<'a>(&mut self, bracket: Bracket, rest: &'a [char]) -> Result<&'a [char], AllocError> {
        let piece = self.brackets.open(bracket)?;
        self.pieces.push(piece)?;
        Ok(rest)
    }

    /// A closing bracket.
    fn close<'a>(&mut self, alloc: Global, rest: &'a [char]) -> Result<&'a [char], AllocError> {
        let (piece, others) = self.brackets.close(alloc, rest, &mut self.dropped)?;
        self.pieces.push(piece)?;
        Ok(others)
    }
}
