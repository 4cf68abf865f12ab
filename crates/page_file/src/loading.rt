//! The live pages of a file, read from its table pages.
ghost use Rattle.std.specs.Prelude.{◌≡◌, ◌⊎◌, ◌+◌, ◌*◌, ◌<◌, ◌≤◌, ◌++◌, true, false, []};
ghost use Rattle.std.specs.Prelude.{length, Ok, Err, IfOk, IfErr, vec_len, vec_capacity};
ghost use Rattle.std.specs.List.Sorted.{IsPermutation};
ghost use Rattle.fixed_numbers.specs.declared.refusals.TheConstants.{BAD_TABLE};
ghost use Rattle.fixed_numbers.specs.declared.sizes.TheConstants.{MAX_PAGES, MAX_TABLES};
ghost use Rattle.page_file.specs.DiskCalls.{IsLookedAt};
ghost use Rattle.page_file.specs.Gaps.{Grows};
ghost use Rattle.page_file.specs.Index.{live_pages, AreOthers, IsAtRest};
ghost use Rattle.page_file.specs.Pages.{pages, are_whole, is_zero, are_pages};
ghost use Rattle.page_file.specs.Putting.{failed_in};
ghost use Rattle.page_file.specs.Tables.{reached_by, reached_in, AreNamed};
ghost use Rattle.page_file.specs.declared.error.PageError.TheVariants.{Memory, BadTable};
ghost use Rattle.page_file.specs.declared.error.PageError.TheVariants.{ReadFailed};

use crate::error::PageError;
use crate::gaps::{Gap, all_pages, take_page};
use crate::page_numbers::take_numbers;
use crate::pages::Pages;
use crate::reading::read_pages;
use disk_trait::Disk;
use fixed_numbers::sizes::TABLE_ENTRIES;
use std::alloc::{AllocError, Global};

/// Whether all of these numbers are zero.
fn are_zero(numbers: &[u32]) -> bool
    ensures { result ≡ is_zero numbers.now }
{
    for number in numbers {
        if *number != 0 {
            return false;
        }
    }
    true
}

/// Takes pages out of ranges that have all pages, and answers whether they lie behind the root
/// slots and none of them is there twice. The last ones come first: where the pages rise, each
/// costs a few steps.
fn take_pages(gaps: &mut Vec<Gap>, pages: &[u32]) -> bool
    requires all { AreOthers [] gaps.old.items }
    requires room { vec_len gaps.old + length pages.now ≤ vec_capacity gaps.old }
    ensures value { result ≡ are_pages pages.now }
    ensures others { result ≡ true → AreOthers pages.now gaps.new.items }
    ensures grows { Grows (length pages.now) gaps.old gaps.new }
{
    for passed in 0..pages.len() {
        let page = pages[pages.len() - passed - 1];
        if !take_page(gaps, u64::from(page)) {
            return false;
        }
    }
    true
}

/// These pages, sorted. An error is out of memory (1).
fn sorted_of(alloc: Global, tables: &[u32], named: &[u32]) -> Result<Vec<u32>, AllocError>
    ensures same { IfOk result
        (λ sorted. IsPermutation (tables.now ++ named.now) sorted.items) }
    ensures size { IfOk result
        (λ sorted. vec_len sorted ≡ length tables.now + length named.now) }
{
    let mut sorted = Vec::new(alloc);
    sorted.extend_from_slice(tables)?;
    sorted.extend_from_slice(named)?;
    sorted.sort_unstable();
    Ok(sorted)
}

/// The live pages of a root with these table pages and data pages. Refused with 45 where one of
/// them is a root slot or stands twice, and with 1 when out of memory.
fn index_of(alloc: Global, tables: &[u32], named: &[u32]) -> Result<Pages, PageError>
    requires few { length tables.now + length named.now ≤ MAX_PAGES }
    ensures value { IfOk result (λ it. it ≡ record {
      tables = tables.now;
      data_pages = named.now;
      taken = [];
      room = 0;
    }) }
    ensures apart { IfOk result (λ _. are_pages (tables.now ++ named.now) ≡ true) }
    ensures fault { IfErr result
        (λ e. e ≡ BadTable → are_pages (tables.now ++ named.now) ≡ false) }
    ensures refused { IfErr result (λ e. (e ≡ Memory) ⊎ (e ≡ BadTable)) }
{
    let sorted = sorted_of(alloc, tables, named)?;
    let mut gaps = all_pages(alloc, 2 * sorted.len())?;
    if !take_pages(&mut gaps, &sorted) {
        return Err(PageError::BadTable);
    }
    Ok(Pages {
        tables: Vec::from_slice(alloc, tables)?,
        data_pages: Vec::from_slice(alloc, named)?,
        taken: Vec::new(alloc),
        gaps,
        room: 0,
    })
}

/// The live pages of a root with these table pages, in which the numbers `found` stand, and with
/// `count` data pages. Refused with 45 where a page is a root slot or stands twice, where a number
/// is left behind the data pages, or where there are fewer; and with 1 when out of memory.
fn pages_of(alloc: Global, tables: &[u32], count: u64, found: &[u32]) -> Result<Pages, PageError>
    requires few { length tables.now + length found.now ≤ MAX_PAGES }
    ensures value { IfOk result (λ it. reached_by tables.now count found.now ≡ Ok (live_pages it)) }
    ensures parts { IfOk result (λ it. IsAtRest tables.now count it) }
    ensures fault { IfErr result (λ e. e ≡ BadTable → (length found.now < count)
        ⊎ (reached_by tables.now count found.now ≡ Err BAD_TABLE)) }
    ensures refused { IfErr result (λ e. (e ≡ Memory) ⊎ (e ≡ BadTable)) }
{
    if count > found.len() as u64 {
        return Err(PageError::BadTable);
    }
    let (named, rest) = found.split_at(count as usize);
    if !are_zero(rest) {
        return Err(PageError::BadTable);
    }
    index_of(alloc, tables, named)
}

impl Pages {
    /// The live pages of a root: these table pages, which lie whole in the file, and the data pages
    /// that they name. It reads each table page once, in 4,096 bytes of memory a page, and besides
    /// takes some 36 bytes of memory a live page, and the steps of a sort.
    ///
    /// Refuses with 45 where a page is a root slot or stands twice, where a number is left behind
    /// those of the data pages, or where there are fewer; with 50 where the device failed; and with
    /// 1 when out of memory.
    pub fn load<D: Disk>(
        alloc: Global,
        disk: &mut D,
        tables: &[u32],
        data_pages: u64,
    ) -> Result<Pages, PageError>
        requires whole { D.tells disk.old
            → are_whole (pages tables.now (D.content disk.old)) ≡ true }
        requires few { length tables.now ≤ MAX_TABLES }
        ensures read { IfOk result
            (λ it. AreNamed D.DiskFacts disk.old tables.now data_pages it) }
        ensures fault { D.tells disk.old → IfErr result (λ e. e ≡ BadTable
            → (TABLE_ENTRIES * length tables.now < data_pages)
            ⊎ (reached_in tables.now data_pages (D.content disk.old) ≡ Err BAD_TABLE)) }
        ensures refused { IfErr result
            (λ e. (e ≡ Memory) ⊎ ((e ≡ BadTable) ⊎ (e ≡ ReadFailed))) }
        ensures looks { IsLookedAt D.DiskFacts (failed_in result) 0 disk.old disk.new }
    {
        let bytes = read_pages(alloc, disk, tables)?;
        let found = take_numbers(alloc, &bytes, TABLE_ENTRIES * tables.len())?;
        pages_of(alloc, tables, data_pages, &found)
    }
}
