//! The line of a check: compact JSON with its keys in the order of their bytes.
ghost use Rattle.std.specs.Prelude.{◌≡◌};
ghost use Rattle.file_listing.specs.Listing.{Puts};
ghost use Rattle.file_listing.specs.Checked.{name_of, number_of, word_of};
ghost use Rattle.file_listing.specs.Checked.{said_check, said_live, said_owner, said_stale};

use crate::putting::{put, put_member};
use change_codec::Format;
use list_counts::FileRoom;
use op_ids::ReplicaId;
use root_reports::{SlotReport, Stale};
use std::alloc::AllocError;
use uuid::Uuid;

/// Puts the line of a file that was checked: how much is in it, and what its root slots say. An
/// error is out of memory (1).
pub fn put_check(room: FileRoom, report: &SlotReport, out: &mut Vec<u8>) -> Result<(), AllocError>
    ensures { Puts result out.old out.new (said_check room report.now) }
{
    put_member(b"{\"bytes\":", room.bytes, out)?;
    put_member(b",\"documents\":", room.documents, out)?;
    put_live(report, out)?;
    put_member(b"},\"ok\":true,\"operations\":", room.operations, out)?;
    put_owner(report.replica, out)?;
    put_member(b",\"replicas\":", room.replicas, out)?;
    put_stale(report.stale, out)
}

/// Puts the format, where the live root is and how many were made; not the closing brace.
fn put_live(report: &SlotReport, out: &mut Vec<u8>) -> Result<(), AllocError>
    ensures { Puts result out.old out.new (said_live report.now) }
{
    put_member(b",\"format\":", number_of(report.format), out)?;
    put_member(b",\"live\":{\"page\":", report.page, out)?;
    put_member(b",\"version\":", report.version, out)
}

/// Puts the replica that the file belongs to.
fn put_owner(replica: ReplicaId, out: &mut Vec<u8>) -> Result<(), AllocError>
    ensures { Puts result out.old out.new (said_owner replica) }
{
    put(b",\"replica\":\"", out)?;
    put_name(replica, out)?;
    put(b"\"", out)
}

/// Puts what is in the other slot, and the end of the line.
fn put_stale(stale: Stale, out: &mut Vec<u8>) -> Result<(), AllocError>
    ensures { Puts result out.old out.new (said_stale stale) }
{
    put(b",\"stale\":\"", out)?;
    put(word_of(stale), out)?;
    put(b"\"}\n", out)
}

/// The number of a format.
fn number_of(format: Format) -> u64
    ensures { result ≡ number_of format }
{
    match format {
        Format::First => 1,
        Format::Second => 2,
        Format::Third => 3,
    }
}

/// The word for what is in the slot that isn't live.
fn word_of(stale: Stale) -> &'static [u8]
    ensures { result.now ≡ word_of stale }
{
    match stale {
        Stale::Older => b"older",
        Stale::Unfinished => b"unfinished",
        Stale::Empty => b"empty",
        Stale::Broken => b"broken",
    }
}

/// Puts the name of a replica, a UUID.
fn put_name(replica: ReplicaId, out: &mut Vec<u8>) -> Result<(), AllocError>
    ensures { Puts result out.old out.new (name_of replica) }
{
    let mut buffer = Uuid::encode_buffer();
    let name = Uuid::from_bytes(replica.bytes())
        .hyphenated()
        .encode_lower(&mut buffer);
    put(name.as_bytes(), out)
}
