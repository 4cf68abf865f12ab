//! The places at which a text stands in another one.
ghost use Rattle.std.specs.Prelude.{◌≡◌, ◌≤◌, ◌<◌, ◌+◌, ◌*◌, Some, map, length, IfOk};
ghost use Rattle.text_search.specs.Places.{places_of};

use crate::borders::borders;
use crate::next::next;
use op_model::Ticks;
use std::alloc::{AllocError, Global};

/// The most places that are told at once.
pub const MAX_FOUND: usize = 1024;

/// The first 1,024 places, from one on, at which a text of one character or more stands in another
/// one: how many characters stand before it. Places at which it overlaps itself are among them. An
/// error is out of memory (1). At most two steps for each character of both.
pub fn places(
    alloc: Global,
    sought: &[char],
    text: &[char],
    from: usize,
    ticks: &mut Ticks,
) -> Result<Vec<Option<usize>>, AllocError>
    requires { 0 < length sought.now }
    ensures places { IfOk result
        (λ found. found.items ≡ map (λ at. Some at) (places_of sought.now text.now from)) }
    ensures ticks { ticks.new ≤ ticks.old + 2 * (length sought.now + length text.now) }
{
    let borders = borders(alloc, sought, ticks)?;
    let mut found = Vec::new(alloc);
    let mut count = 0;
    for i in from..text.len() {
        count = next(sought, &borders, count, text[i], ticks);
        if count == sought.len() {
            found.push(Some(i + 1 - count))?;
            if found.len() == MAX_FOUND {
                return Ok(found);
            }
        }
    }
    Ok(found)
}
