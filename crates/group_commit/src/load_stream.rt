//! The stream that a root names, page by page.
ghost use Rattle.std.specs.Prelude.{◌≡◌, ◌+◌, ◌*◌, ◌≤◌, ◌++◌, length, IfOk, IfErr, Ok};
ghost use Rattle.fixed_numbers.specs.declared.limits.TheConstants.{MAX_STREAM_LENGTH};
ghost use Rattle.fixed_numbers.specs.declared.sizes.TheConstants.{PAGE_SIZE};
ghost use Rattle.page_file.specs.Pages.{pages};
ghost use Rattle.root_slots.specs.Body.{IsRoot};
ghost use Rattle.group_commit.specs.Loading.{NamesLoadFault, failed_in};
ghost use Rattle.group_commit.specs.Loading.{reached_of, stream_of, stream_at};
ghost use Rattle.group_commit.specs.Opening.{HasOperations, IsLookedAt, IsIndexed, IsStreamOf};
ghost use Rattle.group_commit.specs.Parts.{NamesReadFault};

use crate::load_ops::ops_of;
use crate::load_pages::{are_within, data_pages};
use crate::load_parts::{PartlyRead, read_parts};
use crate::open_fault::OpenError;
use crate::stream_tail::StreamTail;
use disk_trait::Disk;
use page_file::Pages;
use root_slots::RootBody;
use run_list::RunList;
use std::alloc::Global;
use stream_list::StreamReader;

/// The pages of a root, the stream that they hold, and its operations.
#[derive(Drop)]
pub(crate) struct Stream {
    pub pages: Pages,
    pub tail: StreamTail,
    pub ops: RunList,
}

/// The pages of a root. 43 where a table page isn't whole in the file, 45 where the table pages
/// break their rules, 50 where a read failed, 1 when out of memory.
fn read_tables<D: Disk>(
    alloc: Global,
    disk: &mut D,
    size: u64,
    head: &RootBody,
) -> Result<Pages, OpenError>
    requires size { D.tells disk.old → size ≡ length (D.content disk.old) }
    requires valid { IsRoot head.now }
    ensures value { D.tells disk.old
        → IfOk result (λ it. reached_of head.now (D.content disk.old)
        ≡ Ok (head.now.tables ++ it.data_pages)) }
    ensures index { IfOk result (λ it. IsIndexed head.now it) }
    ensures fault { D.tells disk.old
        → IfErr result (λ e. NamesLoadFault e (reached_of head.now (D.content disk.old))) }
    ensures looks { IsLookedAt D.DiskFacts (failed_in result) 0 disk.old disk.new }
{
    let tables = head.tables();
    if !are_within(tables, size) {
        return Err(OpenError::BadRoot);
    }
    let count = data_pages(head.stream_length()) as u64;
    match Pages::load(alloc, disk, tables, count) {
        Ok(pages) => Ok(pages),
        Err(error) => Err(OpenError::from(error)),
    }
}

/// The operations of a root, from its data pages, and the end of its stream. 45 where a page isn't
/// whole in the file; 46 where the rest of the last one isn't zero, or the stream doesn't spell as
/// many operations as the root says; 47 where the records of these take more than 2^30 bytes, one
/// by one; 50 where a read failed, 1 when out of memory.
fn read_data<D: Disk>(
    alloc: Global,
    disk: &mut D,
    size: u64,
    head: &RootBody,
    numbers: &[u32],
) -> Result<(StreamTail, RunList), OpenError>
    requires size { D.tells disk.old → size ≡ length (D.content disk.old) }
    requires room { (head.now.stream_length ≤ MAX_STREAM_LENGTH)
        × (head.now.stream_length ≤ PAGE_SIZE * length numbers.now) }
    ensures value { D.tells disk.old → IfOk result (λ it.
        stream_of head.now.stream_length (pages numbers.now (D.content disk.old)) ≡ Ok it.0) }
    ensures read { IfOk result (λ it. HasOperations head.now it.0 it.1) }
    ensures fault { D.tells disk.old → IfErr result
        (λ e. NamesReadFault e head.now.format head.now.operations
        (stream_of head.now.stream_length (pages numbers.now (D.content disk.old)))) }
    ensures looks { IsLookedAt D.DiskFacts (failed_in result) 0 disk.old disk.new }
{
    if !are_within(numbers, size) {
        return Err(OpenError::BadTable);
    }
    let begun = PartlyRead {
        reader: StreamReader::new(alloc, head.format(), head.operations()),
        tail: StreamTail::new(alloc),
        left: head.stream_length(),
    };
    let PartlyRead { reader, tail, .. } = read_parts(alloc, disk, numbers, begun)?;
    Ok((tail, ops_of(reader)?))
}

/// What a root names, page by page. 43 where a table page isn't whole in the file; 45 where the
/// table pages break their rules or a data page isn't whole; 46, 47, 50 and 1 as `read_data` does.
pub(crate) fn read_stream<D: Disk>(
    alloc: Global,
    disk: &mut D,
    size: u64,
    head: &RootBody,
) -> Result<Stream, OpenError>
    requires size { D.tells disk.old → size ≡ length (D.content disk.old) }
    requires valid { IsRoot head.now }
    ensures read { IfOk result (λ it. IsStreamOf D.DiskFacts head.now disk.old it) }
    ensures fault { D.tells disk.old → IfErr result
        (λ e. NamesReadFault e head.now.format head.now.operations
        (stream_at head.now (D.content disk.old))) }
    ensures looks { IsLookedAt D.DiskFacts (failed_in result) 0 disk.old disk.new }
{
    let pages = read_tables(alloc, disk, size, head)?;
    let (_, data_pages) = pages.live();
    let (tail, ops) = read_data(alloc, disk, size, head, data_pages)?;
    Ok(Stream { pages, tail, ops })
}
