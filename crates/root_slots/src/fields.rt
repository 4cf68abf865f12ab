//! The numbers of a root body, whose places are counted from the body's first byte.
ghost use Rattle.std.specs.Prelude.{◌≡◌, ◌+◌, ◌≤◌, length};
ghost use Rattle.std.specs.Int.{w32, w64, w128, from_be_bytes};
ghost use Rattle.fixed_numbers.specs.declared.sizes.TheConstants.{MAX_TABLES};
ghost use Rattle.disk_trait.specs.File.{part};
ghost use Rattle.root_slots.specs.Body.{tables_for};
ghost use Rattle.root_slots.specs.Head.{is_head, is_named, are_counts};
ghost use Rattle.root_slots.specs.Root.{format_of, is_magic, magic, named_format, replica_of};

use change_codec::Format;
use fixed_numbers::limits::{MAX_OPERATIONS, MAX_STREAM_LENGTH};
use fixed_numbers::sizes::{BODY_LENGTH, PAGE_SIZE, TABLE_ENTRIES};
use op_ids::ReplicaId;

/// `PTXTPG01`, `PTXTPG02` and `PTXTPG03`, read as numbers.
const FIRST: u64 = 0x5054_5854_5047_3031;

const SECOND: u64 = 0x5054_5854_5047_3032;

const THIRD: u64 = 0x5054_5854_5047_3033;

/// What a body begins with whose stream is of this format: `PTXTPG01` to `PTXTPG03`, read as a
/// number.
pub(crate) fn magic(format: Format) -> u64
    ensures { result ≡ magic format }
{
    match format {
        Format::First => FIRST,
        Format::Second => SECOND,
        Format::Third => THIRD,
    }
}

fn is_magic(start: u64) -> bool
    ensures { result ≡ is_magic start }
{
    start == FIRST || start == SECOND || start == THIRD
}

fn named_format(start: u64) -> Format
    ensures { result ≡ named_format start }
{
    if start == FIRST {
        Format::First
    } else if start == SECOND {
        Format::Second
    } else {
        Format::Third
    }
}

/// How many table pages a stream of `stream_length` bytes needs: at most 256.
pub fn tables_for(stream_length: u64) -> u64
    requires { stream_length ≤ MAX_STREAM_LENGTH }
    ensures value { result ≡ tables_for stream_length }
    ensures most { result ≤ MAX_TABLES }
{
    let pages = (stream_length + (PAGE_SIZE as u64 - 1)) / PAGE_SIZE as u64;
    (pages + (TABLE_ENTRIES as u64 - 1)) / TABLE_ENTRIES as u64
}

/// Whether the numbers before those of the table pages lie in their ranges, and there are as many
/// table pages as the stream needs. Takes no memory.
#[tactic(auto, unfolding(crate::specs::Head::is_head))]
pub(crate) fn is_head(body: &[u8]) -> bool
    ensures { result ≡ is_head body.now }
{
    body.len() == BODY_LENGTH
        && is_named(u64_at(body, 0), u64_at(body, 8), u128_at(body, 16))
        && are_counts(
            u64_at(body, 32),
            u64_at(body, 40),
            u32_at(body, 48),
            u32_at(body, 52),
        )
}

#[tactic(auto, unfolding(crate::specs::Head::is_named))]
fn is_named(start: u64, version: u64, replica: u128) -> bool
    ensures { result ≡ is_named start version replica }
{
    is_magic(start) && version >= 1 && replica >= 1
}

#[tactic(auto, unfolding(crate::specs::Head::are_counts))]
fn are_counts(stream_length: u64, operations: u64, tables: u32, gap: u32) -> bool
    ensures { result ≡ are_counts stream_length operations tables gap }
{
    stream_length <= MAX_STREAM_LENGTH
        && operations <= MAX_OPERATIONS as u64
        && u64::from(tables) == tables_for(stream_length)
        && gap == 0
}

/// The format of the stream, as the magic of a body says.
pub(crate) fn format_at(body: &[u8]) -> Format
    requires { 8 ≤ length body.now }
    ensures { result ≡ format_of body.now }
{
    named_format(u64_at(body, 0))
}

/// The replica of a body whose replica isn't nil.
pub(crate) fn replica_at(body: &[u8]) -> ReplicaId
    requires long { 32 ≤ length body.now }
    requires not_nil { 1 ≤ replica_of body.now }
    ensures { result ≡ replica_of body.now }
{
    let (_, rest) = body.split_at(16);
    let (bytes, _) = rest.split_first_chunk::<16>().unwrap();
    ReplicaId::read(*bytes).unwrap()
}

/// The number of four bytes at this place.
pub(crate) fn u32_at(body: &[u8], at: usize) -> u32
    requires { at + 4 ≤ length body.now }
    ensures { result ≡ from_be_bytes w32 (part body.now at 4) }
{
    let (_, rest) = body.split_at(at);
    let (bytes, _) = rest.split_first_chunk::<4>().unwrap();
    u32::from_be_bytes(*bytes)
}

/// The number of eight bytes at this place.
pub(crate) fn u64_at(body: &[u8], at: usize) -> u64
    requires { at + 8 ≤ length body.now }
    ensures { result ≡ from_be_bytes w64 (part body.now at 8) }
{
    let (_, rest) = body.split_at(at);
    let (bytes, _) = rest.split_first_chunk::<8>().unwrap();
    u64::from_be_bytes(*bytes)
}

/// The number of sixteen bytes at this place.
pub(crate) fn u128_at(body: &[u8], at: usize) -> u128
    requires { at + 16 ≤ length body.now }
    ensures { result ≡ from_be_bytes w128 (part body.now at 16) }
{
    let (_, rest) = body.split_at(at);
    let (bytes, _) = rest.split_first_chunk::<16>().unwrap();
    u128::from_be_bytes(*bytes)
}
