//! Which pages of a file are live, and which are free.
ghost use Rattle.std.specs.Prelude.{◌≡◌, ◌+◌, ◌<◌, ◌≤◌, ◌++◌, true, [], length, IfOk, OnOk};
ghost use Rattle.std.specs.Prelude.{OnErr};
ghost use Rattle.fixed_numbers.specs.declared.sizes.TheConstants.{MAX_PAGES};
ghost use Rattle.page_file.specs.Free.{IsLowestFree, AreLowest};
ghost use Rattle.page_file.specs.Index.{used, with_room};
ghost use Rattle.page_file.specs.Pages.{are_pages};

use crate::gaps::{Gap, all_pages, lowest, take_lowest};
use std::alloc::{AllocError, Global};
use std::marker::Model;

/// Which pages of a file are live, and which are taken for the next root. Contracts see these, and
/// for how many more taken pages there is room.
///
/// All other pages are free. They are kept as a list of ranges, which a commit makes longer by a
/// few at most, so no call below looks at each page.
#[derive(Drop)]
pub struct Pages {
    // The pages of the live root.
    pub(crate) tables: Vec<u32>,
    pub(crate) data_pages: Vec<u32>,
    pub(crate) taken: Vec<u32>,
    // All pages that are neither live nor taken, the highest range first.
    pub(crate) gaps: Vec<Gap>,
    // So many pages more can be taken without memory.
    pub(crate) room: usize,
}

impl Model for Pages {
    ghost use Rattle.std.specs.Prelude.{◌+◌, ◌≤◌, ◌++◌, length, vec_len, vec_capacity};
    ghost use Rattle.page_file.specs.Index.{Index, AreOthers, HasRoomForPages};

    ghost Value = { Index };

    ghost view = { λ p. record {
      tables = p.tables.items;
      data_pages = p.data_pages.items;
      taken = p.taken.items;
      room = p.room;
    } };

    ghost invariant = { λ p.
        AreOthers (p.taken.items ++ (p.tables.items ++ p.data_pages.items)) p.gaps.items
        × HasRoomForPages p.room
        (vec_len p.tables) (vec_len p.data_pages) (vec_len p.taken) (vec_len p.gaps)
        (vec_capacity p.tables) (vec_capacity p.data_pages)
        (vec_capacity p.taken) (vec_capacity p.gaps) };
}

impl Pages {
    /// The pages of a file without live ones. One small allocation; an error is out of memory (1).
    pub fn new(alloc: Global) -> Result<Pages, AllocError>
        ensures { IfOk result (λ pages. pages ≡ record {
          tables = [];
          data_pages = [];
          taken = [];
          room = 0;
        }) }
    {
        Ok(Pages {
            tables: Vec::new(alloc),
            data_pages: Vec::new(alloc),
            taken: Vec::new(alloc),
            gaps: all_pages(alloc, 0)?,
            room: 0,
        })
    }

    /// The table pages and the data pages of the live root, each in their order. Takes no memory.
    pub fn live(&self) -> (&[u32], &[u32])
        ensures tables { result.0.now ≡ self.now.tables }
        ensures data_pages { result.1.now ≡ self.now.data_pages }
    {
        (&self.tables, &self.data_pages)
    }

    /// The pages that are taken for the next root, in the order in which they were. Takes no
    /// memory.
    pub fn taken(&self) -> &[u32]
        ensures { result.now ≡ self.now.taken }
    {
        &self.taken
    }

    /// The lowest page that is neither a root slot nor live nor taken. Takes no memory, and a few
    /// steps.
    pub fn lowest_free(&self) -> u32
        requires few { length (used self.now) < 4294967294 }
        ensures { IsLowestFree (used self.now) result }
    {
        lowest(&self.gaps) as u32
    }

    /// So many lowest free pages, in rising order. Two allocations, of sixteen bytes for each range
    /// of free pages and of four bytes for each page that is asked for; an error is out of memory
    /// (1). A few steps for each of these.
    pub fn lowest_free_pages(&self, count: usize) -> Result<Vec<u32>, AllocError>
        requires few { length (used self.now) + count ≤ MAX_PAGES }
        ensures count { IfOk result (λ found. length found.items ≡ count) }
        ensures apart { IfOk result (λ found. are_pages (found.items ++ used self.now) ≡ true) }
        ensures lowest { IfOk result (λ found. AreLowest (used self.now) found.items) }
    {
        let alloc = *self.taken.allocator();
        let mut gaps = Vec::from_slice(alloc, &self.gaps)?;
        let mut found = Vec::with_capacity(alloc, count)?;
        for _ in 0..count {
            let page = take_lowest(&mut gaps);
            found.push_reserved(page as u32);
        }
        Ok(found)
    }

    /// Makes room for the next `count` calls of `put_free`, and for the `adopt` behind them. Four
    /// growths at most; an error is out of memory (1), and changes nothing.
    pub fn reserve(&mut self, count: usize) -> Result<(), AllocError>
        requires few { count ≤ MAX_PAGES }
        ensures room { OnOk result (count ≤ self.new.room) }
        ensures same { self.new ≡ with_room self.new.room self.old }
        ensures no_less { self.old.room ≤ self.new.room }
        ensures unchanged { OnErr result (self.new ≡ self.old) }
    {
        if count <= self.room {
            return Ok(());
        }
        let taken = self.taken.len();
        let live = self.tables.len() + self.data_pages.len();
        self.tables.reserve(taken + count)?;
        self.data_pages.reserve(taken + count)?;
        self.taken.reserve(count)?;
        self.gaps.reserve(live + taken + 2 * count)?;
        self.room = count;
        Ok(())
    }
}
