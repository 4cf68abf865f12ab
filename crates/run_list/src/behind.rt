//! What a record says of the operation before it.
ghost use Rattle.std.specs.Prelude.{◌≡◌};
ghost use Rattle.op_model.specs.declared.op.Op.{Op as Operation};
ghost use Rattle.op_list.specs.Held.{IsRecord};
ghost use Rattle.run_list.specs.Writer.{is_id as is_id_of, is_numbered_behind as is_numbered_behind_of};
ghost use Rattle.run_list.specs.Writer.{is_right_behind as is_right_behind_of};

use change_codec::{record_head, record_origin};
use op_ids::OpId;
use op_list::OpHead;

/// Whether the operation of a record inserts right behind the one with this head: of its replica
/// and its document, with the next counter. Passes over its deps, at most 16; takes no memory.
pub(crate) fn is_right_behind(last: OpHead, bytes: &[u8]) -> bool
    requires { (op : Operation) × IsRecord bytes.now op }
    ensures { (op : Operation) → IsRecord bytes.now op → result ≡ is_right_behind_of last op }
{
    let before = last.id;
    let head = record_head(bytes);
    if !is_numbered_behind(last, head.id, head.doc) {
        return false;
    }
    is_id(record_origin(bytes), before)
}

/// Whether an id and a document are those of an operation that its replica made right behind the
/// one with this head, in its document.
fn is_numbered_behind(last: OpHead, id: OpId, doc: u32) -> bool
    ensures { result ≡ is_numbered_behind_of last id doc }
{
    id.counter() == last.id.counter() + 1 && id.replica() == last.id.replica() && doc == last.doc
}

/// Whether this is the id.
fn is_id(found: Option<OpId>, id: OpId) -> bool
    ensures { result ≡ is_id_of found id }
{
    match found {
        Some(found) => found.is_same(id),
        None => false,
    }
}
