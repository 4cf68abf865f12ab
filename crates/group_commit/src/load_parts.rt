//! The stream in data pages, some pages at a time.
ghost use Rattle.std.specs.Prelude.{◌≡◌, ◌*◌, ◌≤◌, ◌++◌, true, length, IfOk, IfErr, Ok};
ghost use Rattle.fixed_numbers.specs.declared.sizes.TheConstants.{PAGE_SIZE};
ghost use Rattle.page_file.specs.Pages.{pages, are_whole, joined};
ghost use Rattle.group_commit.specs.Loading.{failed_in, stream_of};
ghost use Rattle.group_commit.specs.Opening.{IsLookedAt};
ghost use Rattle.group_commit.specs.Parts.{IsUnread, IsPartly, IsPartFault, IsReadOn};
ghost use Rattle.group_commit.specs.Parts.{IsFeedFault, NamesReadFault, TakesPart};

use crate::load_ops::feed;
use crate::open_fault::OpenError;
use crate::stream_tail::StreamTail;
use disk_trait::Disk;
use page_file::{is_zero, read_pages};
use std::alloc::Global;
use stream_list::StreamReader;

/// How many pages are read before the operations in them are listed. They have 256 KiB.
const PART: usize = 64;

/// A stream of which the first pages are read.
#[derive(Drop)]
pub(crate) struct PartlyRead {
    /// The operations in its bytes so far.
    pub reader: StreamReader,
    /// The same bytes, of which memory holds the end alone.
    pub tail: StreamTail,
    /// How many bytes more it has.
    pub left: u64,
}

impl PartlyRead {
    /// The stream with its next bytes. 46 where no bytes behind these make it a stream of as many
    /// operations as there have to be, 1 when out of memory.
    fn and(self, bytes: &[u8]) -> Result<PartlyRead, OpenError>
        requires partly { IsPartly self }
        requires left { length bytes.now ≤ self.left }
        ensures on { IfOk result (IsReadOn self (length bytes.now)) }
        ensures more { IfOk result (λ it. it.tail ≡ self.tail ++ bytes.now) }
        ensures fault { IfErr result (λ e. IsFeedFault e self.reader.format
            (self.tail ++ bytes.now) self.reader.count) }
    {
        let PartlyRead { reader, tail, left } = self;
        Ok(PartlyRead {
            tail: tail.and(bytes)?,
            reader: feed(reader, bytes)?,
            left: left - bytes.len() as u64,
        })
    }
}

/// A stream with the bytes of its next pages, up to its end. 46 where what stands behind that isn't
/// zero, or no bytes behind these make it a stream of as many operations as there have to be; 50
/// where a read failed, 1 when out of memory.
fn read_part<D: Disk>(
    alloc: Global,
    disk: &mut D,
    numbers: &[u32],
    it: PartlyRead,
) -> Result<PartlyRead, OpenError>
    requires whole { D.tells disk.old → are_whole (pages numbers.now (D.content disk.old)) ≡ true }
    requires partly { IsPartly it }
    ensures on { IfOk result (IsReadOn it (PAGE_SIZE * length numbers.now)) }
    ensures takes { D.tells disk.old
        → IfOk result (TakesPart it (joined (pages numbers.now (D.content disk.old)))) }
    ensures fault { D.tells disk.old → IfErr result
        (λ e. IsPartFault e it (joined (pages numbers.now (D.content disk.old)))) }
    ensures looks { IsLookedAt D.DiskFacts (failed_in result) 0 disk.old disk.new }
{
    let bytes = read_pages(alloc, disk, numbers)?;
    let len = it.left.min(bytes.len() as u64);
    let (stream, rest) = bytes.split_at(len as usize);
    if !is_zero(rest) {
        return Err(OpenError::BadStream);
    }
    it.and(stream)
}

/// A stream with the bytes of all its pages, of which none are read so far. They are read in parts
/// of 64, and the operations of each part are listed before the next one is read. Refuses as
/// `read_part` does.
pub(crate) fn read_parts<D: Disk>(
    alloc: Global,
    disk: &mut D,
    numbers: &[u32],
    begun: PartlyRead,
) -> Result<PartlyRead, OpenError>
    requires whole { D.tells disk.old → are_whole (pages numbers.now (D.content disk.old)) ≡ true }
    requires begun { IsUnread begun (PAGE_SIZE * length numbers.now) }
    ensures on { IfOk result (IsReadOn begun (PAGE_SIZE * length numbers.now)) }
    ensures value { D.tells disk.old → IfOk result (λ it.
        stream_of begun.left (pages numbers.now (D.content disk.old)) ≡ Ok it.tail) }
    ensures fault { D.tells disk.old → IfErr result
        (λ e. NamesReadFault e begun.reader.format begun.reader.count
        (stream_of begun.left (pages numbers.now (D.content disk.old)))) }
    ensures looks { IsLookedAt D.DiskFacts (failed_in result) 0 disk.old disk.new }
{
    let mut it = begun;
    let mut rest = numbers;
    while !rest.is_empty() {
        let (part, others) = rest.split_at(rest.len().min(PART));
        it = read_part(alloc, disk, part, it)?;
        rest = others;
    }
    Ok(it)
}
