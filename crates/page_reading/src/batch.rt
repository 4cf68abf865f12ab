//! Changes that are made at once.
use crate::document_end::DocumentEnd;
use crate::marking_run::MarkingRun;
use fixed_numbers::limits::MAX_EDIT;
use op_model::{Change, EditText, Mark, MarkKey, Marks};
use std::alloc::{AllocError, Global};

/// How many changes are gathered before an action is made: fewer than one may have, since the last
/// piece, the marks that end with it, and what takes marks away are some more.
const FULL: usize = 1_000;

/// The most bytes, or nearly, that the operations of an action have: less than may wait for a
/// commit.
const HEAVY: usize = 100_000;

/// The bytes of an operation, or nearly, without its text or address.
const EACH: usize = 128;

/// The bytes of a character, at most.
const CHARACTER: usize = 4;

/// Changes that put text in at the end of a document, and then the marks of it.
#[derive(Drop)]
pub(crate) struct Batch {
    end: DocumentEnd,
    /// Where the next character goes.
    at: u32,
    /// The characters after those that `inserts` put in.
    text: Vec<char>,
    inserts: Vec<Change>,
    marks: Vec<Change>,
    strong: MarkingRun,
    em: MarkingRun,
    link: MarkingRun,
    weight: usize,
}

impl Batch {
    /// No change, at the end of a document.
    pub(crate) fn new(alloc: Global, end: DocumentEnd) -> Batch {
        Batch {
            end,
            at: end.length,
            text: Vec::new(alloc),
            inserts: Vec::new(alloc),
            marks: Vec::new(alloc),
            strong: MarkingRun::none(),
            em: MarkingRun::none(),
            link: MarkingRun::none(),
            weight: 0,
        }
    }

    /// The end of the document at which they are made.
    pub(crate) fn end(&self) -> DocumentEnd {
        self.end
    }

    /// Whether no more is to be added.
    pub(crate) fn is_full(&self) -> bool {
        self.inserts.len().saturating_add(self.marks.len()) > FULL || self.weight > HEAVY
    }

    /// Adds text that has these marks.
    pub(crate) fn add(
        &mut self,
        alloc: Global,
        text: &[char],
        marks: &Marks,
    ) -> Result<(), AllocError> {
        self.come(marks)?;
        for character in text {
            self.text.push(*character)?;
            self.weight = self.weight.saturating_add(CHARACTER);
            self.at = self.at.saturating_add(1);
            if self.text.len() >= MAX_EDIT {
                self.insert(alloc)?;
            }
        }
        Ok(())
    }

    /// Comes to text that has these marks.
    fn come(&mut self, marks: &Marks) -> Result<(), AllocError> {
        let strong = if marks.strong {
            Some(Mark::Strong)
        } else {
            None
        };
        let em = if marks.em { Some(Mark::Em) } else { None };
        let link = match &marks.link {
            Some(url) => {
                let length = url.as_str().len();
                self.weight = self.weight.saturating_add(length);
                Some(Mark::Link(url.copy()?))
            }
            None => None,
        };
        self.weight = self.weight.saturating_add(EACH);
        self.strong.come(self.at, strong, &mut self.marks)?;
        self.em.come(self.at, em, &mut self.marks)?;
        self.link.come(self.at, link, &mut self.marks)
    }

    /// Makes an insert of the characters that wait, if there are any.
    fn insert(&mut self, alloc: Global) -> Result<(), AllocError> {
        let length = u32::try_from(self.text.len()).unwrap_or(u32::MAX);
        let text = std::mem::replace(&mut self.text, Vec::new(alloc));
        if let Some(text) = EditText::new(text) {
            let at = self.at.saturating_sub(length);
            self.inserts
                .push(Change::Insert { at, text })
                .map_err(AllocError::from)?;
        }
        self.weight = self.weight.saturating_add(EACH);
        Ok(())
    }

    /// The changes: inserts, then those that take away the marks which these would have of the
    /// character before them, then marks; and the end of the document after them. An error is out
    /// of memory (1).
    pub(crate) fn finish(
        mut self,
        alloc: Global,
    ) -> Result<(Vec<Change>, DocumentEnd), AllocError> {
        let next = DocumentEnd {
            doc: self.end.doc,
            length: self.at,
            strong: self.strong.goes_on(),
            em: self.em.goes_on(),
            link: false,
        };
        self.insert(alloc)?;
        self.strong.come(self.at, None, &mut self.marks)?;
        self.em.come(self.at, None, &mut self.marks)?;
        self.link.come(self.at, None, &mut self.marks)?;
        if self.at > self.end.length {
            self.take_inherited()?;
        }
        let Batch {
            inserts: mut changes,
            marks,
            ..
        } = self;
        for mark in marks {
            changes.push(mark).map_err(AllocError::from)?;
        }
        Ok((changes, next))
    }

    /// Takes from what is put in the marks that it would have of the character before it.
    fn take_inherited(&mut self) -> Result<(), AllocError> {
        if self.end.strong {
            self.take(MarkKey::Strong)?;
        }
        if self.end.em {
            self.take(MarkKey::Em)?;
        }
        if self.end.link {
            self.take(MarkKey::Link)?;
        }
        Ok(())
    }

    /// Takes a mark from what is put in.
    fn take(&mut self, key: MarkKey) -> Result<(), AllocError> {
        self.inserts
            .push(Change::Unmark {
                from: self.end.length,
                to: self.at,
                key,
            })
            .map_err(AllocError::from)
    }
}
