//! How much there is of what there is a limit to, as JSON.
ghost use Rattle.session_lines.specs.Counting.{said_file_room, said_room, said_taken};
ghost use Rattle.session_lines.specs.Putting.{Puts};

use crate::numbered::put_part;
use crate::quoted::put;
use fixed_numbers::limits::{
    MAX_DOCUMENTS, MAX_OPERATIONS, MAX_REPLICAS, MAX_STEPS, MAX_STREAM_LENGTH,
};
use list_counts::{FileRoom, Room};
use std::alloc::AllocError;

/// Puts how much a file has, without the closing bracket.
fn put_taken(room: &FileRoom, out: &mut Vec<u8>) -> Result<(), AllocError>
    ensures { Puts result out.old out.new (said_taken room.now) }
{
    put_part(
        b"{\"bytes\":",
        room.bytes,
        b",\"bytes_limit\":",
        MAX_STREAM_LENGTH,
        out,
    )?;
    put_part(
        b",\"documents\":",
        room.documents,
        b",\"documents_limit\":",
        MAX_DOCUMENTS as u64,
        out,
    )?;
    put_part(
        b",\"ok\":true,\"operations\":",
        room.operations,
        b",\"operations_limit\":",
        MAX_OPERATIONS as u64,
        out,
    )?;
    put_part(
        b",\"replicas\":",
        room.replicas,
        b",\"replicas_limit\":",
        MAX_REPLICAS as u64,
        out,
    )
}

/// Puts the line that says how much a file has of what there is a limit to. An error is out of
/// memory (1), and leaves some of it.
pub fn put_file_room(room: &FileRoom, out: &mut Vec<u8>) -> Result<(), AllocError>
    ensures { Puts result out.old out.new (said_file_room room.now) }
{
    put_taken(room, out)?;
    put(b"}\n", out)
}

/// Puts the answer that says how much room there is.
pub(crate) fn put_room(room: &Room, out: &mut Vec<u8>) -> Result<(), AllocError>
    ensures { Puts result out.old out.new (said_room room.now) }
{
    put_taken(&room.file, out)?;
    put_part(
        b",\"steps\":",
        room.steps,
        b",\"steps_limit\":",
        MAX_STEPS as u64,
        out,
    )?;
    put(b"}\n", out)
}
