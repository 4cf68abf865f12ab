//! The end of a document, at which a page is put in.
use op_model::Span;

/// The end of a document: how much it shows, and what its last character has that what is put in
/// there would have too.
#[derive(Clone, Copy, Debug, PartialEq, Eq)]
pub struct DocumentEnd {
    /// The number of the document, from 1 on.
    pub doc: u32,
    /// How many characters it shows; `u32::MAX` stands for more.
    pub length: u32,
    pub strong: bool,
    pub em: bool,
    pub link: bool,
}

impl DocumentEnd {
    /// The end of a document that shows these spans.
    pub fn of(doc: u32, spans: &[Span]) -> DocumentEnd {
        let mut length: u32 = 0;
        for span in spans {
            let more = u32::try_from(span.text.as_slice().len()).unwrap_or(u32::MAX);
            length = length.saturating_add(more);
        }
        let last = spans.last();
        DocumentEnd {
            doc,
            length,
            strong: last.is_some_and(|span| span.marks.strong),
            em: last.is_some_and(|span| span.marks.em),
            link: last.is_some_and(|span| span.marks.link.is_some()),
        }
    }
}
