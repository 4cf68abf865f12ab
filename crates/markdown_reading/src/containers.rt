//! Quotes and items of lists, in which a line may stand.
use crate::block_starts::{Marker, is_blank_line, quoted};
use crate::scanning::count_of;
use std::alloc::{AllocError, Global};

/// How many containers a line may stand in: what would begin another one is text. Each line is
/// looked at once in each of them.
const DEEPEST: usize = 100;

/// What a line may stand in.
#[derive(Clone, Copy, PartialEq, Eq)]
enum Container {
    Quote,
    /// An item: how far its text is indented, and whether it has some.
    Item { indent: usize, is_empty: bool },
}

/// What the lines that come stand in.
#[derive(Drop)]
pub(crate) struct Containers {
    open: Vec<Container>,
}

impl Containers {
    /// Nothing.
    pub(crate) fn new(alloc: Global) -> Containers {
        Containers {
            open: Vec::new(alloc),
        }
    }

    /// How many there are.
    pub(crate) fn count(&self) -> usize {
        self.open.len()
    }

    /// Whether no more of them begin.
    pub(crate) fn is_deepest(&self) -> bool {
        self.open.len() >= DEEPEST
    }

    /// In how many of them a line stands, and what is left of it there.
    pub(crate) fn go_on<'a>(&self, line: &'a [char]) -> (usize, &'a [char]) {
        let mut rest = line;
        for (i, container) in self.open.iter().enumerate() {
            match within(*container, rest) {
                Some(others) => rest = others,
                None => return (i, rest),
            }
        }
        (self.open.len(), rest)
    }

    /// Keeps so many.
    pub(crate) fn keep(&mut self, count: usize) {
        self.open.truncate(count);
    }

    /// Begins a quote.
    pub(crate) fn begin_quote(&mut self) -> Result<(), AllocError> {
        self.fill();
        self.open.push(Container::Quote)?;
        Ok(())
    }

    /// Begins an item after so many spaces.
    pub(crate) fn begin_item(
        &mut self,
        spaces: usize,
        marker: Marker<'_>,
    ) -> Result<(), AllocError> {
        self.fill();
        self.open.push(Container::Item {
            indent: spaces.saturating_add(marker.width),
            is_empty: true,
        })?;
        Ok(())
    }

    /// Notes that something stands in the innermost one.
    pub(crate) fn fill(&mut self) {
        if let Some(Container::Item { is_empty, .. }) = self.open.last_mut() {
            *is_empty = false;
        }
    }
}

/// What is left of a line that stands in a container.
fn within(container: Container, line: &[char]) -> Option<&[char]> {
    let spaces = count_of(line, ' ');
    match container {
        Container::Quote if spaces < 4 => quoted(line.get(spaces..)?),
        Container::Quote => None,
        Container::Item { indent, .. } if spaces >= indent => line.get(indent..),
        Container::Item { is_empty, .. } => {
            if is_blank_line(line) && !is_empty {
                line.get(spaces..)
            } else {
                None
            }
        }
    }
}
