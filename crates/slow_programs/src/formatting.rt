//! The marks of a character, by a look at all mark operations.
ghost use Rattle.std.specs.Prelude.{◌≡◌, ◌+◌, ◌≤◌, ◌<◌, length, IfOk, Option, Some, None, filter};
ghost use Rattle.std.specs.Option.{option_copied};
ghost use Rattle.op_model.specs.Marks.{markings as markings_of};
ghost use Rattle.op_model.specs.Places.{index_of as index_in, place as place_of};
ghost use Rattle.op_model.specs.Places.{start_place as start_place_of, end_place as end_place_of};
ghost use Rattle.op_model.specs.Places.{covers as is_covered};
ghost use Rattle.op_model.specs.Spans.{deciding as deciding_of, decided as decided_of, comment_ids as comment_ids_of, marks_of as marks_at};

use crate::rising::insert_rising;
use op_ids::OpId;
use op_model::{
    Anchor, Character, CommentId, CommentIds, End, Mark, MarkKey, Marking, Marks, Op, Start,
};
use std::alloc::{AllocError, Global};

/// The mark operations of a document. An error is out of memory (1).
pub fn markings(alloc: Global, ops: &[Op], doc: u32) -> Result<Vec<Marking>, AllocError>
    ensures { IfOk result (λ found. found.items ≡ markings_of ops.now doc) }
{
    let mut found = Vec::new(alloc);
    let mut i = ops.len();
    while i > 0 {
        i -= 1;
        if ops[i].doc == doc {
            if let Some(marking) = ops[i].marking()? {
                found.insert(0, marking)?;
            }
        }
    }
    Ok(found)
}

fn index_of(id: &OpId, characters: &[Character]) -> usize
    ensures within { result ≤ length characters.now }
    ensures there { result ≡ index_in id.now characters.now }
{
    for (i, character) in characters.iter().enumerate() {
        if character.id.is_same(*id) {
            return i;
        }
    }
    characters.len()
}

fn place(characters: &[Character], anchor: &Anchor) -> u128
    ensures { result ≡ place_of characters.now anchor.now }
{
    match anchor {
        Anchor::Before(id) => 2 * index_of(id, characters) as u128 + 1,
        Anchor::After(id) => 2 * index_of(id, characters) as u128 + 2,
    }
}

fn start_place(characters: &[Character], start: &Start) -> u128
    ensures { result ≡ start_place_of characters.now start.now }
{
    match start {
        Start::OfText => 0,
        Start::From(anchor) => place(characters, anchor),
    }
}

fn end_place(characters: &[Character], end: &End) -> u128
    ensures { result ≡ end_place_of characters.now end.now }
{
    match end {
        End::To(anchor) => place(characters, anchor),
        End::OfText => 2 * characters.len() as u128 + 1,
    }
}

fn covers(characters: &[Character], k: usize, marking: &Marking) -> bool
    ensures { result ≡ is_covered characters.now k marking.now }
{
    let before = 2 * k as u128 + 1;
    start_place(characters, &marking.start) <= before
        && before < end_place(characters, &marking.end)
}

/// Of the mark operations of a key that cover the k-th character, the one with the greatest id.
fn deciding<'a>(
    characters: &[Character],
    markings: &'a [Marking],
    k: usize,
    key: &MarkKey,
) -> Option<&'a Marking>
    ensures { option_copied result ≡ deciding_of characters.now markings.now k key.now }
{
    let mut best = None;
    let mut i = markings.len();
    while i > 0 {
        i -= 1;
        let marking = &markings[i];
        if marking.key.is_same(key) && covers(characters, k, marking) {
            best = Some(marking.greater(best));
        }
    }
    best
}

fn decided<'a>(
    characters: &[Character],
    markings: &'a [Marking],
    k: usize,
    key: &MarkKey,
) -> Option<&'a Mark>
    ensures { option_copied result ≡ decided_of characters.now markings.now k key.now }
{
    match deciding(characters, markings, k, key) {
        Some(marking) => marking.mark.as_ref(),
        None => None,
    }
}

/// The comments that mark operations name, in rising order.
fn comment_ids(alloc: Global, markings: &[Marking]) -> Result<Vec<CommentId>, AllocError>
    ensures { IfOk result (λ ids. ids.items ≡ comment_ids_of markings.now) }
{
    let mut ids = Vec::new(alloc);
    let mut i = markings.len();
    while i > 0 {
        i -= 1;
        if let MarkKey::Comment(id) = markings[i].key {
            insert_rising(&mut ids, id)?;
        }
    }
    Ok(ids)
}

/// The marks of the k-th character of a text. An error is out of memory (1).
pub fn marks_of(
    alloc: Global,
    characters: &[Character],
    markings: &[Marking],
    k: usize,
) -> Result<Marks, AllocError>
    ensures { IfOk result (λ marks. marks ≡ marks_at characters.now markings.now k) }
{
    let link = match decided(characters, markings, k, &MarkKey::Link) {
        Some(Mark::Link(url)) => Some(url.copy()?),
        _ => None,
    };
    let comments = comment_ids(alloc, markings)?
        .iter()
        .copied()
        .filter(|id| decided(characters, markings, k, &MarkKey::Comment(*id)).is_some())
        .collect::<Vec<CommentId>>(alloc)?;
    Ok(Marks {
        strong: decided(characters, markings, k, &MarkKey::Strong).is_some(),
        em: decided(characters, markings, k, &MarkKey::Em).is_some(),
        link,
        comments: CommentIds::from(comments),
    })
}
