//! A document's spans as Markdown, with breaks of the line.
ghost use Rattle.std.specs.Prelude.{◌≡◌, ◌++◌, IfOk, OnOk, codes};
ghost use Rattle.span_export.specs.Markdown.{add_spans, markdown_page};
ghost use Rattle.span_export.specs.Reading.{plain, read_markdown, text_of};

use crate::draft::Draft;
use crate::markdown_span::add_span;
use op_model::Span;
use std::alloc::{AllocError, Global};

/// Spans as Markdown (CommonMark), in one paragraph: line feeds are breaks of the line. A span is
/// written as `add_span` says. An error is out of memory (1). The time is that of the page's
/// length.
pub(crate) fn markdown(alloc: Global, spans: &[Span]) -> Result<Vec<u8>, AllocError>
    ensures page { IfOk result (λ page. page.items ≡ markdown_page spans.now) }
    ensures shows { IfOk result (λ page.
        read_markdown plain page.items ≡ text_of spans.now ++ codes "\n") }
{
    let mut draft = Draft::new(alloc);
    add_spans(alloc, spans, &mut draft)?;
    draft.finish()
}

/// Writes spans, one after the other.
fn add_spans(alloc: Global, spans: &[Span], draft: &mut Draft) -> Result<(), AllocError>
    ensures { OnOk result (draft.new ≡ add_spans spans.now draft.old) }
{
    for span in spans {
        add_span(alloc, span, draft)?;
    }
    Ok(())
}
