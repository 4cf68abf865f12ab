//! Ranges of pages, the highest first.
ghost use Rattle.std.specs.Prelude.{◌≡◌, ◌+◌, ◌<◌, ◌≤◌, ◌==◌, ◌++◌, true, false, [], length, take};
ghost use Rattle.std.specs.Prelude.{drop, vec_len, vec_capacity, IfOk, MatchOption};
ghost use Rattle.page_file.specs.Gaps.{in_gaps, are_falling, bottom, begins_by, between};
ghost use Rattle.page_file.specs.Gaps.{Loses, Gains, Grows};
ghost use Rattle.page_file.specs.Index.{AreOthers};

use std::alloc::{AllocError, Global};

/// The pages from a start up to an end, the end left out.
#[derive(Clone, Copy, Debug, Drop)]
pub struct Gap {
    pub start: u64,
    pub end: u64,
}

/// How many page numbers there are.
const NUMBERS: u64 = 4294967296;

/// All pages behind the root slots as one range, with room for `more` ranges besides. One
/// allocation; an error is out of memory (1).
pub(crate) fn all_pages(alloc: Global, more: usize) -> Result<Vec<Gap>, AllocError>
    requires few { more ≤ 2147483648 }
    ensures all { IfOk result (λ gaps. AreOthers [] gaps.items) }
    ensures one { IfOk result (λ gaps. vec_len gaps ≡ 1) }
    ensures room { IfOk result (λ gaps. vec_len gaps + more ≤ vec_capacity gaps) }
{
    let mut gaps = Vec::with_capacity(alloc, more + 1)?;
    gaps.push_reserved(Gap {
        start: 2,
        end: NUMBERS,
    });
    Ok(gaps)
}

/// The place of the range that has a page, if there is one.
fn find(gaps: &[Gap], page: u64) -> Option<usize>
    requires falling { are_falling 4294967296 gaps.now ≡ true }
    ensures { MatchOption result (in_gaps page gaps.now ≡ false)
        (λ at. in_gaps page (take 1 (drop at gaps.now)) ≡ true) }
{
    for passed in 0..gaps.len() {
        let at = gaps.len() - passed - 1;
        let gap = gaps[at];
        if page < gap.start {
            return None;
        }
        if page < gap.end {
            return Some(at);
        }
    }
    None
}

/// Whether one of the ranges has a page. Takes no memory; ranges below the page are passed one by
/// one.
pub(crate) fn has_page(gaps: &[Gap], page: u64) -> bool
    requires falling { are_falling 4294967296 gaps.now ≡ true }
    ensures { result ≡ in_gaps page gaps.now }
{
    match find(gaps, page) {
        Some(_) => true,
        None => false,
    }
}

/// The place of the first range that doesn't start behind a page: behind all those that do.
fn place_of(gaps: &[Gap], page: u64) -> usize
    requires page { page < 4294967296 }
    ensures within { result ≤ length gaps.now }
    ensures above { page < bottom 4294967296 (take result gaps.now) }
    ensures below { begins_by page (drop result gaps.now) ≡ true }
{
    for passed in 0..gaps.len() {
        let at = gaps.len() - passed;
        if page < gaps[at - 1].start {
            return at;
        }
    }
    0
}

/// Puts the pages from a start up to an end at a place, as one range or none.
fn put_gap(gaps: &mut Vec<Gap>, at: usize, start: u64, end: u64)
    requires within { at ≤ length gaps.old.items }
    requires room { vec_len gaps.old < vec_capacity gaps.old }
    ensures items { gaps.new.items
        ≡ take at gaps.old.items ++ (between start end ++ drop at gaps.old.items) }
    ensures grows { Grows 1 gaps.old gaps.new }
{
    if start < end {
        match gaps.insert(at, Gap { start, end }) {
            Ok(()) => {}
            Err(_) => unreachable!(),
        }
    }
}

/// Takes a page out of its range, and answers whether there is one. Takes no memory; ranges below
/// the page are passed and moved one by one.
pub(crate) fn take_page(gaps: &mut Vec<Gap>, page: u64) -> bool
    requires falling { are_falling 4294967296 gaps.old.items ≡ true }
    requires room { vec_len gaps.old < vec_capacity gaps.old }
    ensures found { result ≡ in_gaps page gaps.old.items }
    ensures loses { Loses page gaps.old.items gaps.new.items }
    ensures grows { Grows 1 gaps.old gaps.new }
{
    match find(gaps, page) {
        Some(at) => {
            split(gaps, at, page);
            true
        }
        None => false,
    }
}

/// Leaves of the range at a place the pages before and behind one.
fn split(gaps: &mut Vec<Gap>, at: usize, page: u64)
    requires falling { are_falling 4294967296 gaps.old.items ≡ true }
    requires has { in_gaps page (take 1 (drop at gaps.old.items)) ≡ true }
    requires room { vec_len gaps.old < vec_capacity gaps.old }
    ensures found { in_gaps page gaps.old.items ≡ true }
    ensures loses { Loses page gaps.old.items gaps.new.items }
    ensures grows { Grows 1 gaps.old gaps.new }
{
    let gap = gaps.remove(at);
    put_gap(gaps, at, gap.start, page);
    put_gap(gaps, at, page + 1, gap.end);
}

/// Gives back a page that is in none of the ranges, as a range of its own. Takes no memory; ranges
/// below the page are passed and moved one by one.
pub(crate) fn give_page(gaps: &mut Vec<Gap>, page: u64)
    requires falling { are_falling 4294967296 gaps.old.items ≡ true }
    requires page { page < 4294967296 }
    requires lacks { in_gaps page gaps.old.items ≡ false }
    requires room { vec_len gaps.old < vec_capacity gaps.old }
    ensures gains { Gains (λ m. m == page) gaps.old.items gaps.new.items }
    ensures grows { Grows 1 gaps.old gaps.new }
{
    let at = place_of(gaps, page);
    put_gap(gaps, at, page, page + 1);
}

/// The lowest page of ranges. Takes no memory, and a few steps.
pub(crate) fn lowest(gaps: &[Gap]) -> u64
    requires some { 0 < length gaps.now }
    ensures { result ≡ bottom 4294967296 gaps.now }
{
    gaps[gaps.len() - 1].start
}

/// Takes the lowest page out of ranges. Takes no memory, and a few steps.
pub(crate) fn take_lowest(gaps: &mut Vec<Gap>) -> u64
    requires falling { are_falling 4294967296 gaps.old.items ≡ true }
    requires some { 0 < length gaps.old.items }
    ensures lowest { result ≡ bottom 4294967296 gaps.old.items }
    ensures loses { Loses result gaps.old.items gaps.new.items }
{
    let at = gaps.len() - 1;
    let gap = gaps.remove(at);
    put_gap(gaps, at, gap.start + 1, gap.end);
    gap.start
}
