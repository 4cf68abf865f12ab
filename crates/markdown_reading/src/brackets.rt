//! Brackets, and the links and images that they begin.
use crate::dropped::{Dropped, Kind};
use crate::pieces::{Bracket, Piece};
use crate::scanning::{after, first};
use crate::targets::{target, unescaped};
use op_model::Url;
use std::alloc::{AllocError, Global};

/// The brackets of a paragraph.
#[derive(Drop)]
pub(crate) struct Brackets {
    pub all: Vec<Bracket>,
    /// The numbers of those that aren't closed.
    open: Vec<usize>,
    /// So many of these stand around a link, so that they can't begin one.
    around: usize,
}

impl Brackets {
    /// None yet.
    pub(crate) fn new(alloc: Global) -> Brackets {
        Brackets {
            all: Vec::new(alloc),
            open: Vec::new(alloc),
            around: 0,
        }
    }

    /// Adds a bracket that isn't closed by another one, and gives its number.
    pub(crate) fn add(&mut self, bracket: Bracket) -> Result<usize, AllocError> {
        let number = self.all.len();
        self.all.push(bracket).map_err(AllocError::from)?;
        Ok(number)
    }

    /// Adds a bracket that may begin a link or an image.
    pub(crate) fn open(&mut self, bracket: Bracket) -> Result<Piece, AllocError> {
        let number = self.add(bracket)?;
        self.open.push(number)?;
        Ok(Piece::Open(number))
    }

    /// What a closing bracket is, and what is left after it.
    pub(crate) fn close<'a>(
        &mut self,
        alloc: Global,
        text: &'a [char],
        dropped: &mut Dropped,
    ) -> Result<(Piece, &'a [char]), AllocError> {
        let as_text = (Piece::Shown(']'), text);
        let Some(number) = self.open.pop() else {
            return Ok(as_text);
        };
        let is_of_image = self
            .all
            .get(number)
            .is_some_and(|found| found.is_of_image());
        let is_around = self.open.len() < self.around;
        self.around = self.around.min(self.open.len());
        if is_around && !is_of_image {
            return Ok(as_text);
        }
        let Some((address, rest)) = after(text, '(').and_then(target) else {
            self.note_reference(text, number, dropped);
            return Ok(as_text);
        };
        let begun = self.begun(alloc, is_of_image, address, dropped)?;
        if let Some(found) = self.all.get_mut(number) {
            *found = begun;
        }
        Ok((Piece::Close(number), rest))
    }

    /// The bracket that begins a link or an image.
    fn begun(
        &mut self,
        alloc: Global,
        is_of_image: bool,
        address: &[char],
        dropped: &mut Dropped,
    ) -> Result<Bracket, AllocError> {
        if is_of_image {
            dropped.count(Kind::Image);
            return Ok(Bracket::Image);
        }
        self.around = self.open.len();
        let url = Url::new(unescaped(alloc, address)?);
        if url.is_none() {
            dropped.count(Kind::Link);
        }
        Ok(Bracket::Link(url))
    }

    /// Counts a link by a name, or what a name at the start of a paragraph stands for.
    fn note_reference(&self, text: &[char], number: usize, dropped: &mut Dropped) {
        let is_named = first(text) == Some('[');
        let is_meaning = number == 0 && first(text) == Some(':');
        if is_named || is_meaning {
            dropped.count(Kind::Reference);
        }
    }
}
