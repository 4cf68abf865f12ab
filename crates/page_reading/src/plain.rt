//! A text as it stands.
ghost use Rattle.std.specs.Prelude.{◌≡◌, ◌∷◌, [], ◌<◌, IfOk, length};
ghost use Rattle.markdown_reading.specs.Pages.{no_marks, nothing};

use markdown_reading::{Dropped, Page};
use op_model::{CommentIds, Marks, Span, Text};
use std::alloc::{AllocError, Global};

/// Reads a text as it stands: each of its characters, without marks. An error is out of memory (1).
/// The time is that of its length.
pub fn read_text(alloc: Global, text: &[char]) -> Result<Page, AllocError>
    ensures none { IfOk result (λ page. text.now ≡ [] → page.spans.items ≡ []) }
    ensures all { IfOk result (λ page. 0 < length text.now
        → page.spans.items ≡ record { text = text.now; marks = no_marks } ∷ []) }
    ensures dropped { IfOk result (λ page. page.dropped ≡ nothing) }
{
    let mut spans = Vec::new(alloc);
    if !text.is_empty() {
        spans
            .push(Span {
                text: Text::from(text.to_vec(alloc)?),
                marks: Marks {
                    strong: false,
                    em: false,
                    link: None,
                    comments: CommentIds::from(Vec::new(alloc)),
                },
            })
            .map_err(AllocError::from)?;
    }
    Ok(Page {
        spans,
        dropped: Dropped::none(),
    })
}
