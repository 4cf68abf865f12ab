//! The record of a run, made of that of its first operation.
ghost use Rattle.std.specs.Prelude.{◌≡◌, ◌+◌, ◌*◌, ◌<◌, ◌≤◌, ◌∷◌, ◌++◌, length, true, vec_len, vec_capacity};
ghost use Rattle.change_codec.specs.Spelling.{spelled};
ghost use Rattle.change_codec.specs.Writing.{Appends, HasRoom};
ghost use Rattle.op_model.specs.Causality.{is_insert};
ghost use Rattle.op_model.specs.declared.op.Op.{Op as Operation};
ghost use Rattle.op_pieces.specs.Cutting.{value_of};
ghost use Rattle.piece_codec.specs.Spelling.{spelled_run, text_bytes};

use crate::kind::run_byte;
use crate::text::put_text;
use change_codec::{put_byte, put_bytes, put_u32};

/// The kind of the record of an insert that has a token.
const TOKEN_INSERT: u8 = 17;

/// Puts the record of a run in room that was reserved: of the operation that inserts `first` and
/// has this record of its own, and of those that insert the others. Takes no memory; each byte is
/// written once.
pub fn put_typed(insert: &[u8], first: char, others: &[char], out: &mut Vec<u8>)
    requires whole { 9 ≤ length insert.now }
    requires short { length insert.now ≤ 1511 }
    requires few { length others.now < 256 }
    requires room { vec_len out.old + (length insert.now + 2 + 4 * length others.now)
        ≤ vec_capacity out.old }
    ensures { (op : Operation) → insert.now ≡ spelled op → is_insert op.body ≡ true
        → first ≡ value_of op.body → Appends out.old out.new (spelled_run op others.now) }
{
    // The length, the kind and the character are other ones; what stands between is the same.
    let fields = &insert[5..insert.len() - 4];
    let body = insert.len() - 2 + 4 * others.len();
    put_u32(body as u32, out);
    put_parts(
        run_byte(insert[4] == TOKEN_INSERT),
        fields,
        first,
        others,
        out,
    );
}

/// Puts a kind, fields and characters.
fn put_parts(kind: u8, fields: &[u8], first: char, others: &[char], out: &mut Vec<u8>)
    requires few { length others.now < 256 }
    requires room { HasRoom out.old (kind ∷ (fields.now ++ text_bytes (first ∷ others.now))) }
    ensures { Appends out.old out.new (kind ∷ (fields.now ++ text_bytes (first ∷ others.now))) }
{
    put_byte(kind, out);
    put_bytes(fields, out);
    put_text(first, others, out);
}
