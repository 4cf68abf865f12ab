//! The marks of one character.
ghost use Rattle.std.specs.Prelude.{◌≡◌, map, IfOk};
ghost use Rattle.span_flatten.specs.Formatting.{marks_in};

use comment_marks::{Comments, decided};
use op_model::{Mark, MarkKey, Marking, Marks};
use std::alloc::{AllocError, Global};

/// The marks of a character that these mark operations cover. An error is out of memory (1). For
/// each of them a search among the comments that they name.
pub(crate) fn marks_of(alloc: Global, set: &[&Marking]) -> Result<Marks, AllocError>
    ensures { IfOk result (λ marks. marks ≡ marks_in (map (λ m. m.now) set.now)) }
{
    let link = match decided(set, &MarkKey::Link) {
        Some(Mark::Link(url)) => Some(url.copy()?),
        _ => None,
    };
    Ok(Marks {
        strong: decided(set, &MarkKey::Strong).is_some(),
        em: decided(set, &MarkKey::Em).is_some(),
        link,
        comments: Comments::of(alloc, set)?.into_ids(),
    })
}
