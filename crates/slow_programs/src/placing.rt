//! Where an edit's characters and ends stand.
ghost use Rattle.std.specs.Prelude.{◌≡◌, ◌≤◌, ◌<◌, length, drop, Option, filter};
ghost use Rattle.op_model.specs.Text.{is_removed as is_removed_in};
ghost use Rattle.op_model.specs.Made.{first_hidden, behind_visible, is_end_after, is_marking_up_to};
ghost use Rattle.op_model.specs.Made.{ends_after as ends_after_in, id_at as id_at_in};
ghost use Rattle.op_model.specs.Made.{id_before as id_before_in, last_or};

use crate::reading::is_removed;
use op_ids::OpId;
use op_model::{Anchor, Body, Character, End, Op};

/// Whether some mark operation of the document ends just after this character.
pub(crate) fn ends_after(ops: &[Op], doc: u32, id: &OpId) -> bool
    ensures { result ≡ ends_after_in ops.now doc id.now }
{
    ops.iter()
        .any(|op| op.doc == doc && marks_up_to(&op.body, id))
}

fn marks_up_to(body: &Body, id: &OpId) -> bool
    ensures { result ≡ is_marking_up_to id.now body.now }
{
    match body {
        Body::AddMark { end, .. } => is_just_after(end, id),
        Body::RemoveMark { end, .. } => is_just_after(end, id),
        _ => false,
    }
}

fn is_just_after(end: &End, id: &OpId) -> bool
    ensures { result ≡ is_end_after id.now end.now }
{
    match end {
        End::To(Anchor::After(other)) => other.is_same(*id),
        _ => false,
    }
}

/// The id of the character at an index.
pub(crate) fn id_at(characters: &[Character], index: usize) -> Option<OpId>
    ensures { result ≡ id_at_in characters.now index }
{
    match characters.get(index) {
        Some(character) => Some(character.id),
        None => None,
    }
}

/// The id of the last of the first `count` characters.
pub(crate) fn id_before(characters: &[Character], count: usize) -> Option<OpId>
    ensures { result ≡ id_before_in characters.now count }
{
    if count == 0 {
        return None;
    }
    id_at(characters, count - 1)
}

/// How many characters are up to and with `count` visible ones: what stands behind them begins
/// there.
pub(crate) fn behind(ops: &[Op], doc: u32, walked: &[Character], count: usize) -> usize
    ensures within { result ≤ length walked.now }
    ensures rest { drop result walked.now
        ≡ behind_visible (is_removed_in ops.now doc) count walked.now }
{
    let mut left = count;
    for (i, character) in walked.iter().enumerate() {
        if left == 0 {
            return i;
        }
        if !is_removed(ops, doc, character) {
            left -= 1;
        }
    }
    walked.len()
}

/// Of the tombstones that these characters begin with the last one that some mark ends after, or
/// else this character.
pub fn last_end(ops: &[Op], doc: u32, before: Option<OpId>, rest: &[Character]) -> Option<OpId>
    ensures { result ≡ last_or before
        (filter (λ c. ends_after_in ops.now doc c.id)
        (first_hidden (is_removed_in ops.now doc) rest.now)) }
{
    let mut last = before;
    for character in rest {
        if !is_removed(ops, doc, character) {
            return last;
        }
        if ends_after(ops, doc, &character.id) {
            last = Some(character.id);
        }
    }
    last
}
