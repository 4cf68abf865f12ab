//! What puts a page in at the end of a document.
use crate::action_draft::ActionDraft;
use crate::batch::Batch;
use crate::document_end::DocumentEnd;
use fixed_numbers::limits::MAX_EDIT;
use op_model::{Action, Change, CommentIds, Marks, Span};
use std::alloc::{AllocError, Global};

/// The actions that put spans in at the end of a document, to be made one after another: each puts
/// in some text and then the marks of that. Where the document shows something, a line feed without
/// marks comes first. Nothing is to be made of no spans. Comments aren't put in. An error is out of
/// memory (1). The time is that of the text's length, and of the addresses of its spans.
pub fn actions(alloc: Global, end: DocumentEnd, spans: &[Span]) -> Result<Vec<Action>, AllocError> {
    let mut gathered = Gathered {
        made: Vec::new(alloc),
        batch: Batch::new(alloc, end),
    };
    if end.length > 0 && !spans.is_empty() {
        gathered.add(alloc, &['\n'], &plain(alloc))?;
    }
    for span in spans {
        gathered.add_span(alloc, span)?;
    }
    gathered.finish(alloc)
}

/// No marks.
fn plain(alloc: Global) -> Marks {
    Marks {
        strong: false,
        em: false,
        link: None,
        comments: CommentIds::from(Vec::new(alloc)),
    }
}

/// The actions that are whole, and the changes of the next one.
#[derive(Drop)]
struct Gathered {
    made: Vec<Action>,
    batch: Batch,
}

impl Gathered {
    /// Adds a span, at most 256 characters at once.
    fn add_span(&mut self, alloc: Global, span: &Span) -> Result<(), AllocError> {
        for piece in span.text.as_slice().chunks(MAX_EDIT) {
            self.add(alloc, piece, &span.marks)?;
        }
        Ok(())
    }

    /// Adds text with these marks.
    fn add(&mut self, alloc: Global, text: &[char], marks: &Marks) -> Result<(), AllocError> {
        if self.batch.is_full() {
            self.end_batch(alloc)?;
        }
        self.batch.add(alloc, text, marks)
    }

    /// Makes an action of what was gathered, and gathers anew after it.
    fn end_batch(&mut self, alloc: Global) -> Result<(), AllocError> {
        let empty = Batch::new(alloc, self.batch.end());
        let batch = std::mem::replace(&mut self.batch, empty);
        let (changes, next) = batch.finish(alloc)?;
        self.batch = Batch::new(alloc, next);
        self.make(alloc, next.doc, changes)
    }

    /// Makes an action of these changes, and another one where they are more than it may have.
    fn make(&mut self, alloc: Global, doc: u32, changes: Vec<Change>) -> Result<(), AllocError> {
        let mut draft = ActionDraft::new(alloc);
        for change in changes {
            if draft.is_full() {
                let whole = std::mem::replace(&mut draft, ActionDraft::new(alloc));
                self.put(whole.finish(doc))?;
            }
            draft.add(change)?;
        }
        self.put(draft.finish(doc))
    }

    /// Puts an action after those that are made, if there is one.
    fn put(&mut self, action: Option<Action>) -> Result<(), AllocError> {
        match action {
            Some(action) => self.made.push(action).map_err(AllocError::from),
            None => Ok(()),
        }
    }

    /// All actions.
    fn finish(mut self, alloc: Global) -> Result<Vec<Action>, AllocError> {
        self.end_batch(alloc)?;
        let Gathered { made, .. } = self;
        Ok(made)
    }
}
