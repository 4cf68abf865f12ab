//! What a commit is about to write: the new root, and the new pages.
ghost use Rattle.std.specs.Prelude.{◌≡◌, ℕ, ◌+◌, ◌*◌, ◌/◌, ◌^◌, ◌≤◌, ◌<◌, ◌++◌, true, []};
ghost use Rattle.std.specs.Prelude.{List, length, get_or, take, drop, IfOk};
ghost use Rattle.fixed_numbers.specs.declared.limits.TheConstants.{MAX_OPERATIONS, MAX_STREAM_LENGTH, MAX_VERSION};
ghost use Rattle.fixed_numbers.specs.declared.sizes.TheConstants.{MAX_LIVE_PAGES};
ghost use Rattle.page_file.specs.Free.{AreLowest};
ghost use Rattle.page_file.specs.Pages.{are_pages, is_zero, number_bytes};
ghost use Rattle.root_slots.specs.Root.{version_of, count_of, stream_length_of};
ghost use Rattle.group_commit.specs.Paging.{IsIndexOf, IsRenewed};
ghost use Rattle.group_commit.specs.Saved.{HasDataPages, with_stream, base_of};
ghost use Rattle.group_commit.specs.Planning.{Plans, Prepares, IsGrown, HasPagesFor};
ghost use Rattle.group_commit.specs.Planning.{TakesCommit, TakesRecords};
ghost use Rattle.group_commit.specs.Plan.{kept_of};
ghost use Rattle.group_commit.specs.Planning.{padded};

use crate::load_pages::data_pages;
use crate::planned::{Live, Records};
use crate::root::Root;
use crate::stream_tail::{StreamTail, behind};
use change_codec::Format;
use fixed_numbers::sizes::{PAGE_SIZE, TABLE_ENTRIES};
use ghost_lists::Written;
use page_file::{Pages, is_zero, put_numbers};
use root_slots::{RootBody, RootHead, tables_for};
use std::alloc::{AllocError, Global};

/// The root that a commit makes, and its new pages: their numbers, and 4,096 bytes each.
#[derive(Drop)]
pub(crate) struct Plan {
    pub next: Root,
    // How many data pages stay, and how many new ones come behind them.
    pub kept: usize,
    pub new_data: usize,
    pub numbers: Vec<u32>,
    pub fresh: Vec<u8>,
}

/// How many new pages a plan has: data pages, and table pages.
#[derive(Clone, Copy)]
struct PageCounts {
    of_data: usize,
    of_tables: usize,
}

/// A plan for new records, and the stream of its root: they come after the live root's stream, or
/// are the whole one. An error is out of memory (1).
pub(crate) fn plan_next(
    live: Live<'_>,
    stream: &StreamTail,
    whole: bool,
    new: Records<'_>,
) -> Result<(Plan, StreamTail), AllocError>
    requires { TakesCommit live.root.now live.index.now stream.now whole new.bytes.now new.count }
    ensures long { IfOk result (λ it. length it.1 ≡ stream_length_of it.0.next.body) }
    ensures plan { IfOk result (λ it. Plans (with_stream live.entry.root.now stream.now)
        (base_of whole (with_stream live.entry.root.now stream.now)) new.entry.bytes.now
        new.entry.count (with_stream it.0.next it.1) it.0.numbers.items it.0.fresh.items) }
    ensures renews { IfOk result (λ it. IsRenewed it.0.kept it.0.new_data it.0.numbers.items
        live.entry.index.now it.0.next) }
{
    let current = live.root;
    let data_pages = live_data_pages(current, live.index);
    if whole {
        let base = current.emptied()?;
        let none = StreamTail::new(current.allocator());
        let plan = make_plan(live, &base, &none, &[], new)?;
        let next_stream = none.and(new.bytes)?;
        Ok((plan, next_stream))
    } else {
        let plan = make_plan(live, current, stream, data_pages, new)?;
        let next_stream = stream.and(new.bytes)?;
        Ok((plan, next_stream))
    }
}

/// A plan for new records after a base: the live root, or one without pages. An error is out of
/// memory (1). The base's pages whose bytes or entries stay keep their numbers; the others are
/// written anew, on free pages.
fn make_plan(
    live: Live<'_>,
    base: &Root,
    stream: &StreamTail,
    olds: &[u32],
    new: Records<'_>,
) -> Result<Plan, AllocError>
    requires { TakesRecords live.root.now base.now live.index.now stream.now olds.now new.bytes.now
        new.count }
    ensures long { IfOk result
        (λ made. stream_length_of made.next.body ≡ length stream.now + length new.entry.bytes.now) }
    ensures plan { IfOk result (λ made. Prepares live.entry.root.now.pages
        (with_stream base.now stream.now) new.entry.bytes.now new.entry.count
        (with_stream made.next (stream.now ++ new.entry.bytes.now)) made.numbers.items
        made.fresh.items) }
    ensures renews { IfOk result (λ made.
        IsRenewed made.kept made.new_data made.numbers.items live.entry.index.now made.next) }
    ensures few { IfOk result (λ made. length made.numbers.items ≤ MAX_LIVE_PAGES) }
{
    let records = new.bytes;
    let alloc = live.root.allocator();
    let old_long = base.stream_length() as usize;
    let kept = kept_pages(old_long, records);
    let long = old_long + records.len();
    let new_data = data_pages(long as u64) - kept;
    let new_tables = tables_for(long as u64) as usize - kept / TABLE_ENTRIES;
    let numbers = free_pages(live.root, live.index, new_data + new_tables)?;
    let (data_numbers, table_numbers) = numbers.split_at(new_data);
    let DataPages { all, entries } = next_data_pages(alloc, olds, kept, data_numbers)?;
    let tables = kept_and_new(alloc, base.tables(), kept / TABLE_ENTRIES, table_numbers)?;
    let kept_bytes = PAGE_SIZE * kept;
    let old_bytes = rest_behind(stream, old_long, kept_bytes);
    let new_bytes = behind(records, kept_bytes.saturating_sub(old_long));
    let counts = PageCounts {
        of_data: new_data,
        of_tables: new_tables,
    };
    let fresh = new_pages(alloc, old_bytes, new_bytes, &entries, counts)?;
    let next = root_on(base, new.count, long as u64, all, tables)?;
    Ok(Plan {
        next,
        kept,
        new_data,
        numbers,
        fresh,
    })
}

/// Page numbers have four bytes: a call that does nothing.
fn numbers_are_small(numbers: &[u32])
    ensures { (i : ℕ) → get_or numbers.now i 0 < 2 ^ 32 }
{}

/// How many data pages stay, of a stream of `long` bytes to which these records come.
fn kept_pages(long: usize, records: &[u8]) -> usize
    requires { long ≤ MAX_STREAM_LENGTH }
    ensures { result ≡ kept_of long records.now }
{
    let pages = data_pages(long as u64);
    if is_zero(front(records, PAGE_SIZE * pages - long)) {
        pages
    } else {
        pages - 1
    }
}

/// The first `most` bytes, or all of them.
fn front(bytes: &[u8], most: usize) -> &[u8]
    ensures { result.now ≡ take most bytes.now }
{
    if most < bytes.len() {
        &bytes[..most]
    } else {
        bytes
    }
}

/// The bytes of a stream of `long` bytes behind the pages that stay, the full ones among them.
fn rest_behind(stream: &StreamTail, long: usize, kept_bytes: usize) -> &[u8]
    requires long { length stream.now ≡ long }
    requires full { PAGE_SIZE * (long / PAGE_SIZE) ≤ kept_bytes }
    ensures { result.now ≡ drop kept_bytes stream.now }
{
    let full_bytes = PAGE_SIZE * (long / PAGE_SIZE);
    behind(stream.tail(), kept_bytes - full_bytes)
}

/// The data pages of the live root.
fn live_data_pages<'a>(current: &Root, pages: &'a Pages) -> &'a [u32]
    requires { IsIndexOf current.now pages.now }
    ensures { (stream : List ℕ) → length stream ≡ stream_length_of current.now.body
        → HasDataPages (with_stream current.now stream) result.now }
{
    // For the proof: its contract says which data pages the root has.
    let _named = current.data_pages();
    let (_, data_pages) = pages.live();
    data_pages
}

/// The data pages of the next root: all as proofs see them, and in memory those that its new table
/// pages name.
#[derive(Drop)]
struct DataPages {
    all: Written<u32>,
    entries: Vec<u32>,
}

/// The first `kept` of these data pages, and new ones behind them. The entries are fewer than 1,024
/// of those, and the new ones. An error is out of memory (1).
fn next_data_pages(
    alloc: Global,
    olds: &[u32],
    kept: usize,
    news: &[u32],
) -> Result<DataPages, AllocError>
    requires { kept ≤ length olds.now }
    ensures all { IfOk result (λ it. it.all.items ≡ take kept olds.now ++ news.now) }
    ensures entries { IfOk result (λ it. it.entries.items
        ≡ drop (TABLE_ENTRIES * (kept / TABLE_ENTRIES)) (take kept olds.now ++ news.now)) }
    ensures small { (i : ℕ) → get_or (take kept olds.now ++ news.now) i 0 < 2 ^ 32 }
{
    // For the proof, as the comment there says.
    numbers_are_small(olds);
    numbers_are_small(news);
    let first = TABLE_ENTRIES * (kept / TABLE_ENTRIES);
    let entries = kept_and_new(alloc, &olds[first..], kept - first, news)?;
    let all = Written::new().and(&olds[..kept]).and(news);
    Ok(DataPages { all, entries })
}

/// The first `kept` of these page numbers, and new ones behind them.
fn kept_and_new(
    alloc: Global,
    olds: &[u32],
    kept: usize,
    news: &[u32],
) -> Result<Vec<u32>, AllocError>
    requires { kept ≤ length olds.now }
    ensures { IfOk result (λ all. all.items ≡ take kept olds.now ++ news.now) }
{
    let mut all = Vec::new(alloc);
    all.extend_from_slice(&olds[..kept])?;
    all.extend_from_slice(news)?;
    Ok(all)
}

/// So many lowest pages that the root doesn't reach.
fn free_pages(current: &Root, pages: &Pages, count: usize) -> Result<Vec<u32>, AllocError>
    requires few { count ≤ MAX_LIVE_PAGES }
    requires index { IsIndexOf current.now pages.now }
    requires none { pages.now.taken ≡ [] }
    ensures count { IfOk result (λ found. length found.items ≡ count) }
    ensures apart { IfOk result (λ found. are_pages (found.items ++ current.now.pages) ≡ true) }
    ensures lowest { IfOk result (λ found. AreLowest current.now.pages found.items) }
{
    // For the proof: its contract says which pages the root reaches.
    let _reached = current.data_pages();
    pages.lowest_free_pages(count)
}

/// The bytes of these many data pages and, after them, of the table pages with these numbers, each
/// filled with zeros.
fn new_pages(
    alloc: Global,
    old_bytes: &[u8],
    new_bytes: &[u8],
    numbers: &[u32],
    counts: PageCounts,
) -> Result<Vec<u8>, AllocError>
    requires few { counts.of_data + counts.of_tables ≤ MAX_LIVE_PAGES }
    requires data_room { length old_bytes.now + length new_bytes.now ≤ PAGE_SIZE * counts.of_data }
    requires table_room { length numbers.now ≤ TABLE_ENTRIES * counts.of_tables }
    ensures { IfOk result (λ fresh. fresh.items
        ≡ padded (PAGE_SIZE * counts.of_data) (old_bytes.now ++ new_bytes.now)
        ++ padded (PAGE_SIZE * counts.of_tables) (number_bytes numbers.now)) }
{
    let mut fresh = Vec::new(alloc);
    fresh.extend_from_slice(old_bytes)?;
    fresh.extend_from_slice(new_bytes)?;
    fresh.resize(PAGE_SIZE * counts.of_data, 0)?;
    put_numbers(numbers, &mut fresh)?;
    fresh.resize(PAGE_SIZE * (counts.of_data + counts.of_tables), 0)?;
    Ok(fresh)
}

/// The next root, with a stream of this length on these pages.
fn root_on(
    current: &Root,
    more: u64,
    long: u64,
    data_pages: Written<u32>,
    tables: Vec<u32>,
) -> Result<Root, AllocError>
    requires version { version_of current.now.body < MAX_VERSION }
    requires count { count_of current.now.body + more ≤ MAX_OPERATIONS }
    requires pages { HasPagesFor long tables.items data_pages.items }
    ensures long { IfOk result (λ next. stream_length_of next.body ≡ long) }
    ensures grown { IfOk result (λ next. (stream : List ℕ) → length stream ≡ long
        → IsGrown current.now.body more data_pages.items tables.items (with_stream next stream)) }
{
    let version = current.version() + 1;
    let count = current.count() + more;
    let head = RootHead {
        format: Format::Third,
        version,
        replica: current.replica(),
        stream_length: long,
        operations: count,
    };
    match RootBody::new(head, tables) {
        Some(head) => {
            let next = Root::new(current.allocator(), head, data_pages)?;
            Ok(next)
        }
        None => unreachable!(),
    }
}
