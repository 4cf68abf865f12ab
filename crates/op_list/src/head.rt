//! What an operation's record begins with.
ghost use Rattle.std.specs.Prelude.{◌≡◌};
ghost use Rattle.op_list.specs.Heads.{is_insert_kind, recorded};

use change_codec::{Head, Kind};
use op_ids::OpId;

/// What is known of an operation without its deps and its content.
#[derive(Clone, Copy, Debug)]
pub struct OpHead {
    pub id: OpId,
    /// The number of its document.
    pub doc: u32,
    /// Whether it inserts a character.
    pub is_insert: bool,
}

impl OpHead {
    /// The same from what the operation's record begins with.
    pub(crate) fn of_record(head: Head) -> OpHead
        ensures { result ≡ recorded head }
    {
        OpHead {
            id: head.id,
            doc: head.doc,
            is_insert: is_insert(head.kind),
        }
    }
}

fn is_insert(kind: Kind) -> bool
    ensures { result ≡ is_insert_kind kind }
{
    match kind {
        Kind::Insert => true,
        _ => false,
    }
}
