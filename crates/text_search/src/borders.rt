//! What the beginnings of a text end with.
ghost use Rattle.std.specs.Prelude.{◌≡◌, ◌≤◌, ◌+◌, ◌*◌, length, IfOk};
ghost use Rattle.text_search.specs.Ends.{AreBorders};

use crate::next::next;
use op_model::Ticks;
use std::alloc::{AllocError, Global};

/// For each beginning of a text how many characters the longest shorter beginning has that it ends
/// with. An error is out of memory (1). At most two steps for each character.
pub(crate) fn borders(
    alloc: Global,
    sought: &[char],
    ticks: &mut Ticks,
) -> Result<Vec<usize>, AllocError>
    ensures borders { IfOk result (λ found. AreBorders sought.now found.items) }
    ensures all { IfOk result (λ found. length found.items ≡ length sought.now) }
    ensures ticks { ticks.new ≤ ticks.old + 2 * length sought.now }
{
    let mut found = Vec::with_capacity(alloc, sought.len())?;
    let mut count = 0;
    for i in 0..sought.len() {
        if i > 0 {
            count = next(sought, &found, count, sought[i], ticks);
        }
        found.push(count)?;
    }
    Ok(found)
}
