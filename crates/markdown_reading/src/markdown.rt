//! A page of Markdown.
ghost use Rattle.std.specs.Prelude.{IfOk};
ghost use Rattle.markdown_reading.specs.Pages.{HaveText};

use crate::blocks::Blocks;
use crate::lines::put_line;
use crate::page::Page;
use crate::scanning::{after, after_word, front, skip};
use std::alloc::{AllocError, Global};

/// Reads Markdown: its paragraphs, with a line feed between two of them, and in these what is
/// strong, emphasised or a link. Other structure becomes plain text, and is counted. An error is
/// out of memory (1). The time is nearly that of the page's length.
pub fn read_markdown(alloc: Global, text: &[char]) -> Result<Page, AllocError>
    ensures { IfOk result (λ page. HaveText page.spans.items) }
{
    let mut blocks = Blocks::new(alloc);
    let mut line = Vec::new(alloc);
    let mut rest = text;
    for _ in 0..text.len() {
        if rest.is_empty() {
            break;
        }
        let end = skip(rest, |character| character != '\n' && character != '\r');
        put_line(front(rest, end), &mut line)?;
        blocks.take(alloc, &line)?;
        rest = after_line(end);
    }
    blocks.finish(alloc)
}

/// What is left after the end of a line.
fn after_line(text: &[char]) -> &[char] {
    after_word(text, "\r\n")
        .or(after(text, '\n'))
        .or(after(text, '\r'))
        .unwrap_or(text)
}
