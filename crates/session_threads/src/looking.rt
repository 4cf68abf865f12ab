//! The answers that are made of a document's text or spans.
ghost use Rattle.std.specs.Prelude.{◌≡◌, ◌⊎◌, Some, map};
ghost use Rattle.session_lines.specs.declared.answer.Answer.TheVariants as answer;
ghost use Rattle.session_lines.specs.declared.refusal.Refusal.TheVariants.{Memory};
ghost use Rattle.span_export.specs.Exported.{exported};
ghost use Rattle.text_search.specs.Places.{places_of};

use op_model::{EditText, Span, Text, Ticks};
use session_lines::{Answer, Exported, PlaceList, Refusal};
use span_export::{Form, export};
use std::alloc::Global;
use text_search::places;

/// The answer where a text stands in one of so many operations, from so many characters on; or out
/// of memory (1). Costs what `text_search::places` does.
pub fn answer_find(alloc: Global, rev: u64, text: &Text, sought: &EditText, from: u32) -> Answer
    ensures { (result ≡ answer.Places rev
        (map (λ at. Some at) (places_of sought.now text.now from)))
        ⊎ (result ≡ answer.Refused Memory) }
{
    let ticks = &mut Ticks::new();
    match places(
        alloc,
        sought.as_slice(),
        text.as_slice(),
        from as usize,
        ticks,
    ) {
        Ok(found) => Answer::Places {
            rev,
            places: PlaceList::from(found),
        },
        Err(_) => Answer::Refused(Refusal::Memory),
    }
}

/// The answer that has the spans of so many operations in this form; or out of memory (1). Costs
/// what `span_export::export` does.
pub fn answer_export(alloc: Global, rev: u64, spans: &[Span], form: Form) -> Answer
    ensures { (result ≡ answer.Exported rev (exported form spans.now))
        ⊎ (result ≡ answer.Refused Memory) }
{
    match export(alloc, form, spans) {
        Ok(bytes) => Answer::Exported {
            rev,
            text: Exported::from(bytes),
        },
        Err(_) => Answer::Refused(Refusal::Memory),
    }
}
