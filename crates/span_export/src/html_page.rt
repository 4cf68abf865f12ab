//! A document's spans as a page of HTML, with breaks of the line.
ghost use Rattle.std.specs.Prelude.{◌≡◌, ◌++◌, IfOk, codes, flat_map};
ghost use Rattle.span_export.specs.Html.{html_span, page_head, page_foot, html_page};
ghost use Rattle.span_export.specs.Putting.{Puts};
ghost use Rattle.span_export.specs.Reading.{text, read_html, text_of};

use crate::html_span::put_span;
use crate::putting::put;
use op_model::Span;
use std::alloc::{AllocError, Global};

/// A page of HTML that shows spans in one block: line feeds are shown as they stand. A span is
/// shown as `put_span` says. An error is out of memory (1). The time is that of the page's length.
pub(crate) fn html(alloc: Global, spans: &[Span]) -> Result<Vec<u8>, AllocError>
    ensures page { IfOk result (λ page. page.items ≡ html_page spans.now) }
    ensures shows { IfOk result (λ page.
        read_html text page.items ≡ text_of spans.now ++ codes "\n") }
{
    let mut out = Vec::new(alloc);
    put_page(spans, &mut out)?;
    Ok(out)
}

/// Puts what a page begins with: white space is shown as it stands.
pub(crate) fn put_head(out: &mut Vec<u8>) -> Result<(), AllocError>
    ensures { Puts result out.old out.new page_head }
{
    put(
        b"<!doctype html><meta charset=\"utf-8\"><div style=\"white-space: pre-wrap\">",
        out,
    )
}

/// Puts what a page ends with.
pub(crate) fn put_foot(out: &mut Vec<u8>) -> Result<(), AllocError>
    ensures { Puts result out.old out.new page_foot }
{
    put(b"</div>\n", out)
}

/// Puts a page that shows spans.
fn put_page(spans: &[Span], out: &mut Vec<u8>) -> Result<(), AllocError>
    ensures { Puts result out.old out.new (html_page spans.now) }
{
    put_head(out)?;
    put_spans(spans, out)?;
    put_foot(out)
}

/// Puts spans.
fn put_spans(spans: &[Span], out: &mut Vec<u8>) -> Result<(), AllocError>
    ensures { Puts result out.old out.new (flat_map html_span spans.now) }
{
    for span in spans {
        put_span(span, out)?;
    }
    Ok(())
}
