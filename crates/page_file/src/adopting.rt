//! The pages of the next root become the live ones.
ghost use Rattle.std.specs.Prelude.{◌≡◌, ℕ, ◌+◌, ◌≤◌, ◌++◌, true, false, length, take, drop};
ghost use Rattle.std.specs.Prelude.{vec_len, vec_capacity};
ghost use Rattle.page_file.specs.Gaps.{in_gaps, are_falling, Gains, Grows};
ghost use Rattle.page_file.specs.Index.{adopted};
ghost use Rattle.page_file.specs.Pages.{has, are_pages};

use crate::gaps::{Gap, give_page};
use crate::pages::Pages;

/// Gives back pages that are in none of the ranges.
fn give_pages(gaps: &mut Vec<Gap>, pages: &[u32])
    requires falling { are_falling 4294967296 gaps.old.items ≡ true }
    requires apart { are_pages pages.now ≡ true }
    requires lacks { (m : ℕ) → has m pages.now ≡ true → in_gaps m gaps.old.items ≡ false }
    requires room { vec_len gaps.old + length pages.now ≤ vec_capacity gaps.old }
    ensures gains { Gains (λ m. has m pages.now) gaps.old.items gaps.new.items }
    ensures grows { Grows (length pages.now) gaps.old gaps.new }
{
    for page in pages {
        give_page(gaps, u64::from(*page));
    }
}

/// Leaves the first pages, and puts others behind them.
fn renew(pages: &mut Vec<u32>, kept: usize, others: &[u32])
    requires within { kept ≤ length pages.old.items }
    requires room { vec_len pages.old + length others.now ≤ vec_capacity pages.old }
    ensures items { pages.new.items ≡ take kept pages.old.items ++ others.now }
    ensures size { vec_len pages.new ≡ kept + length others.now }
    ensures capacity { vec_capacity pages.old ≤ vec_capacity pages.new }
{
    pages.truncate(kept);
    match pages.extend_from_slice(others) {
        Ok(()) => {}
        Err(_) => unreachable!(),
    }
}

/// The pages behind the first `kept`.
fn behind(pages: &[u32], kept: usize) -> &[u32]
    requires within { kept ≤ length pages.now }
    ensures { result.now ≡ drop kept pages.now }
{
    &pages[kept..]
}

impl Pages {
    /// The pages of the next root become the live ones, and none is taken any more. The first
    /// `kept_tables` table pages and the first `kept_data` data pages stay. Of the taken pages the
    /// first `new_data` come behind the data pages that stay, the others behind the table pages.
    /// What doesn't stay is free again.
    ///
    /// Takes no memory. Costs a few steps for each taken page and, for each page that is free
    /// again, for each range of free pages below it.
    pub fn adopt(&mut self, kept_tables: usize, kept_data: usize, new_data: usize)
        requires tables { kept_tables ≤ length self.old.tables }
        requires data_pages { kept_data ≤ length self.old.data_pages }
        requires taken { new_data ≤ length self.old.taken }
        ensures { self.new ≡ adopted kept_tables kept_data new_data self.old }
    {
        give_pages(&mut self.gaps, behind(&self.tables, kept_tables));
        give_pages(&mut self.gaps, behind(&self.data_pages, kept_data));
        let (data_pages, tables) = self.taken.split_at(new_data);
        renew(&mut self.tables, kept_tables, tables);
        renew(&mut self.data_pages, kept_data, data_pages);
        self.taken.clear();
    }
}
