//! A store over a disk.
ghost use Rattle.group_commit.specs.Held.{StoreHeld, held_of};
ghost use Rattle.group_commit.specs.Standing.{IsSoundStore, HasStreams};
ghost use Rattle.group_commit.specs.Paging.{IsPaging};
ghost use Rattle.group_commit.specs.Saved.{with_stream};

use crate::phase::Phase;
use crate::root::Root;
use crate::stream_tail::StreamTail;
use disk_trait::Disk;
use page_file::Pages;
use root_slots::Roots;
use std::marker::Model;

/// The live root of a page file on a disk, and the commit under way.
#[derive(Drop)]
pub struct Store<D: Disk> {
    pub(crate) disk: D,
    pub(crate) phase: Phase,
    pub(crate) current: Root,
    pub(crate) next: Root,
    // The pages of the live root, and those that the commit has taken.
    pub(crate) pages: Pages,
    // How many data pages of the live root stay in the next one, and how many new ones come behind
    // them.
    pub(crate) kept: usize,
    pub(crate) new_data: usize,
    // The streams of both roots.
    pub(crate) stream: StreamTail,
    pub(crate) next_stream: StreamTail,
    // Which slot is live, and whether the other gate reads 1.
    pub(crate) roots: Roots,
    pub(crate) failed: bool,
    // Where the live root's format has no runs, the records of its operations in the newest one:
    // the next commit's stream begins with them. Else nothing.
    pub(crate) anew: Vec<u8>,
    // The new pages of the commit: their numbers, and 4,096 bytes each.
    pub(crate) numbers: Vec<u32>,
    pub(crate) fresh: Vec<u8>,
}

impl<D: Disk> Model for Store<D> {
    ghost Value = { StoreHeld D };

    ghost view = { λ s. held_of s.disk s.phase s.roots (with_stream s.current s.stream)
        (with_stream s.next s.next_stream) s.numbers.items s.failed };

    ghost invariant = { λ s. IsSoundStore D.DiskFacts (held_of s.disk s.phase s.roots
        (with_stream s.current s.stream) (with_stream s.next s.next_stream) s.numbers.items
        s.failed) s.roots.slot s.numbers.items s.fresh.items
        × HasStreams s.current s.next s.stream s.next_stream s.anew.items
        × IsPaging s.phase s.failed s.numbers.items s.kept s.new_data s.current s.next s.pages };
}
