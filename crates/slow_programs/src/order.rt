//! The walk through the insertion tree.
ghost use Rattle.std.specs.Prelude.{◌≡◌, ◌≤◌, ◌<◌, ◌∷◌, ◌++◌, length, take, drop, IfOk, OnOk, Option, Some, None};
ghost use Rattle.op_model.specs.Characters.{character_in, characters as characters_of, in_order};
ghost use Rattle.op_model.specs.Walk.{is_parent, below, walk as walk_of};

use op_ids::OpId;
use op_model::{Character, Op};
use std::alloc::{AllocError, Global};

/// The characters that were ever inserted into a document, in rising order of id. An error is out
/// of memory (1).
pub fn characters(alloc: Global, ops: &[Op], doc: u32) -> Result<Vec<Character>, AllocError>
    ensures { IfOk result (λ found. found.items ≡ characters_of ops.now doc) }
{
    let mut found = Vec::new(alloc);
    let mut i = ops.len();
    while i > 0 {
        i -= 1;
        if let Some(character) = character_in_doc(&ops[i], doc) {
            insert_in_order(&mut found, &character)?;
        }
    }
    Ok(found)
}

/// All characters of a document in the order of its text, tombstones too. An error is out of
/// memory (1). Recurses as deep as inserts hang below one another.
pub fn walk(alloc: Global, ops: &[Op], doc: u32) -> Result<Vec<Character>, AllocError>
    ensures { IfOk result (λ walked. walked.items ≡ walk_of ops.now doc) }
{
    let inserts = characters(alloc, ops, doc)?;
    let mut walked = Vec::new(alloc);
    push_below(&None, &inserts, &mut walked)?;
    Ok(walked)
}

fn character_in_doc(op: &Op, doc: u32) -> Option<Character>
    ensures { result ≡ character_in doc op.now }
{
    if op.doc == doc { op.character() } else { None }
}

fn insert_in_order(characters: &mut Vec<Character>, character: &Character) -> Result<(), AllocError>
    ensures { OnOk result (characters.new.items ≡ in_order character.now characters.old.items) }
{
    let at = index_in_order(characters, character);
    characters.insert(at, *character)?;
    Ok(())
}

/// The index of the first that has a greater id, or how many there are.
fn index_in_order(characters: &[Character], character: &Character) -> usize
    ensures within { result ≤ length characters.now }
    ensures there { in_order character.now characters.now
        ≡ take result characters.now ++ character.now ∷ drop result characters.now }
{
    for (i, other) in characters.iter().enumerate() {
        if character.id.is_below(other.id) {
            return i;
        }
    }
    characters.len()
}

fn push_below(
    parent: &Option<OpId>,
    inserts: &[Character],
    walked: &mut Vec<Character>,
) -> Result<(), AllocError>
    ensures { OnOk result (walked.new.items ≡ walked.old.items ++ below parent.now inserts.now) }
{
    let mut i = inserts.len();
    while i > 0 {
        i -= 1;
        let child = &inserts[i];
        if is_child(parent, child) {
            walked.push(*child)?;
            push_below(&Some(child.id), &inserts[i + 1..], walked)?;
        }
    }
    Ok(())
}

fn is_child(parent: &Option<OpId>, child: &Character) -> bool
    ensures { result ≡ is_parent parent.now child.now.origin }
{
    match (parent, &child.origin) {
        (None, None) => true,
        (Some(a), Some(b)) => a.is_same(*b),
        _ => false,
    }
}
