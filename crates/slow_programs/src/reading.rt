//! The text, by a look at all operations.
ghost use Rattle.std.specs.Prelude.{◌≡◌, IfOk, filter, map};
ghost use Rattle.op_model.specs.Text.{is_removal_of, is_removed as is_removed_in, visible as visible_of, text as text_of, rev as rev_of};

use crate::order::walk;
use op_ids::OpId;
use op_model::{Body, Character, Op, Text};
use std::alloc::{AllocError, Global};

/// Whether some operation of the document removes the character.
pub fn is_removed(ops: &[Op], doc: u32, character: &Character) -> bool
    ensures { result ≡ is_removed_in ops.now doc character.now }
{
    ops.iter()
        .any(|op| op.doc == doc && removes(&op.body, &character.id))
}

fn removes(body: &Body, id: &OpId) -> bool
    ensures { result ≡ is_removal_of id.now body.now }
{
    match body {
        Body::Remove { target } => target.is_same(*id),
        _ => false,
    }
}

/// The characters that a reader sees, in the order of the text. An error is out of memory (1).
pub fn visible(alloc: Global, ops: &[Op], doc: u32) -> Result<Vec<Character>, AllocError>
    ensures { IfOk result (λ seen. seen.items ≡ visible_of ops.now doc) }
{
    let walked = walk(alloc, ops, doc)?;
    walked
        .iter()
        .copied()
        .filter(|character| !is_removed(ops, doc, character))
        .collect(alloc)
}

/// The text that a reader sees. An error is out of memory (1).
pub fn text(alloc: Global, ops: &[Op], doc: u32) -> Result<Text, AllocError>
    ensures { IfOk result (λ seen. seen ≡ text_of ops.now doc) }
{
    let seen = visible(alloc, ops, doc)?;
    let values = seen
        .iter()
        .map(|character| character.value)
        .collect::<Vec<char>>(alloc)?;
    Ok(Text::from(values))
}

/// How many operations the document has.
pub fn rev(ops: &[Op], doc: u32) -> usize
    ensures { result ≡ rev_of ops.now doc }
{
    ops.iter().filter(|op| op.doc == doc).count()
}
