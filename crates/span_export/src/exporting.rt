//! Spans in the form that is asked for.
ghost use Rattle.std.specs.Prelude.{◌≡◌, IfOk};
ghost use Rattle.span_export.specs.Exported.{exported, form_named};

use crate::html_page::html;
use crate::html_paragraphs::html_paragraphs;
use crate::markdown_page::markdown;
use crate::markdown_paragraphs::markdown_paragraphs;
use crate::plain_characters::plain_text;
use op_model::Span;
use std::alloc::{AllocError, Global};

/// What a document is exported as.
#[derive(Clone, Copy, Debug, PartialEq, Eq)]
pub enum Form {
    /// Its characters alone.
    Text,
    /// CommonMark, with a paragraph for each line.
    Markdown,
    /// A page of HTML, with a paragraph for each line.
    Html,
    /// CommonMark in one paragraph, with breaks of the line.
    MarkdownBreaks,
    /// A page of HTML without paragraphs, which shows line feeds as they stand.
    HtmlBreaks,
}

impl Form {
    /// The form with this name, if there is one: `text`, `markdown` or `html`, the last two with
    /// breaks of the line in place of paragraphs where these are asked for.
    pub fn named(name: &str, breaks: bool) -> Option<Form>
        ensures { result ≡ form_named name.now breaks }
    {
        match name {
            "text" => Some(Form::Text),
            "markdown" if breaks => Some(Form::MarkdownBreaks),
            "markdown" => Some(Form::Markdown),
            "html" if breaks => Some(Form::HtmlBreaks),
            "html" => Some(Form::Html),
            _ => None,
        }
    }
}

/// Spans in this form, as UTF-8. An error is out of memory (1), which with paragraphs comes for a
/// page of over 268,435,456 bytes, too. The time is that of the result's length.
pub fn export(alloc: Global, form: Form, spans: &[Span]) -> Result<Vec<u8>, AllocError>
    ensures { IfOk result (λ bytes. bytes.items ≡ exported form spans.now) }
{
    match form {
        Form::Text => plain_text(alloc, spans),
        Form::Markdown => markdown_paragraphs(alloc, spans),
        Form::Html => html_paragraphs(alloc, spans),
        Form::MarkdownBreaks => markdown(alloc, spans),
        Form::HtmlBreaks => html(alloc, spans),
    }
}
