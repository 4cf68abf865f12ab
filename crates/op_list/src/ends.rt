//! Where records end, in bytes from the beginning.
ghost use Rattle.std.specs.Prelude.{◌≡◌, ◌+◌, ◌<◌, ◌≤◌, ◌^◌, ◌++◌, length, vec_len, vec_capacity};
ghost use Rattle.op_list.specs.Held.{ends_of};
ghost use Rattle.op_model.specs.Records.{stream_length};

use op_model::Op;

/// Puts where the records of operations end, the first of which starts there, in room that was
/// reserved.
pub(crate) fn push_ends(start: usize, ops: &[Op], ends: &mut Vec<u32>)
    requires room { vec_len ends.old + length ops.now ≤ vec_capacity ends.old }
    requires within { start + stream_length ops.now < 2 ^ 32 }
    ensures { ends.new.items ≡ ends.old.items ++ ends_of start ops.now }
{
    let mut end = start;
    for op in ops {
        end += op.record_length() as usize;
        ends.push_reserved(end as u32);
    }
}
