//! The bytes of a root body.
ghost use Rattle.std.specs.Prelude.{◌≡◌, ◌++◌, OnOk, IfOk};
ghost use Rattle.root_slots.specs.Body.{IsRoot, Spells, root_with, head_bytes, body_bytes};

use crate::fields::magic;
use crate::root_head::RootHead;
use fixed_numbers::sizes::BODY_LENGTH;
use op_ids::laws::{read_undoes_bytes, replica_is_not_nil};
use page_file::put_numbers;
use std::alloc::{AllocError, Global};

/// The 4,088 bytes of a root with this head and these table pages. One allocation; an error is out
/// of memory (1).
pub(crate) fn spelled(alloc: Global, head: &RootHead, tables: &[u32]) -> Result<Vec<u8>, AllocError>
    requires { IsRoot (root_with head.now tables.now) }
    ensures bytes { IfOk result (λ body. body.items
        ≡ body_bytes (root_with head.now tables.now)) }
    ensures read_back { IfOk result (λ body. Spells body.items (root_with head.now tables.now)) }
{
    // For the proof alone: two laws, and a number that is in the range of its type.
    let RootHead {
        version: _version,
        replica,
        ..
    } = *head;
    replica_is_not_nil(replica);
    read_undoes_bytes(replica);
    let mut body = Vec::with_capacity(alloc, BODY_LENGTH)?;
    put_head(head, tables.len() as u32, &mut body)?;
    put_numbers(tables, &mut body)?;
    body.resize(BODY_LENGTH, 0)?;
    Ok(body)
}

/// Appends the 56 bytes before the table page numbers.
fn put_head(head: &RootHead, tables: u32, out: &mut Vec<u8>) -> Result<(), AllocError>
    ensures { OnOk result (out.new.items ≡ out.old.items
        ++ head_bytes head.now.format head.now.version head.now.replica head.now.stream_length
        head.now.operations tables) }
{
    let replica = head.replica;
    out.extend_from_slice(&magic(head.format).to_be_bytes())?;
    out.extend_from_slice(&head.version.to_be_bytes())?;
    out.extend_from_slice(&replica.bytes())?;
    out.extend_from_slice(&head.stream_length.to_be_bytes())?;
    out.extend_from_slice(&head.operations.to_be_bytes())?;
    out.extend_from_slice(&tables.to_be_bytes())?;
    out.extend_from_slice(&[0; 4])?;
    Ok(())
}
