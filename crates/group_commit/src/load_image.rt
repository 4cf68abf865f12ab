//! What a file stands for, read from its disk.
ghost use Rattle.std.specs.Prelude.{◌≡◌, ◌≤◌, ◌<◌, ◌++◌, false, length, List, ℕ, IfOk, IfErr};
ghost use Rattle.root_slots.specs.Live.{IsLive};
ghost use Rattle.root_slots.specs.Root.{stream_length_of};
ghost use Rattle.root_slots.specs.Body.{IsRoot, body_bytes, root_of};
ghost use Rattle.group_commit.specs.Saved.{IsInMemory};
ghost use Rattle.group_commit.specs.Image.{stored};
ghost use Rattle.group_commit.specs.Loading.{NamesLoadFault, failed_in, failures_of, is_of_sync};
ghost use Rattle.group_commit.specs.Loading.{IsReadFault, IsFirstFault};
ghost use Rattle.group_commit.specs.Plan.{newest};
ghost use Rattle.op_model.specs.Records.{stream_length};
ghost use Rattle.piece_codec.specs.Formats.{has_runs};
ghost use Rattle.piece_codec.specs.Stream.{SpellsList};
ghost use Rattle.group_commit.specs.Opening.{IsLookedAt, IsImageOf, HandsBack};

use crate::load_stream::{Stream, read_stream};
use crate::open_fault::OpenError;
use crate::opening_sync::sync_file;
use crate::root::Root;
use crate::stream_tail::StreamTail;
use change_codec::Format;
use disk_trait::Disk;
use ghost_lists::Written;
use page_file::Pages;
use root_slots::{LoadedRoots, RootBody, Roots};
use run_list::RunList;
use std::alloc::{AllocError, Global};
use stream_list::packed;

/// What a file stands for: its root slots, its root, its stream and its operations. `next` is an
/// empty root, whose place the next commit takes.
#[derive(Drop)]
pub(crate) struct Image {
    pub roots: Roots,
    pub current: Root,
    pub next: Root,
    pub pages: Pages,
    pub stream: StreamTail,
    pub ops: RunList,
    pub anew: Vec<u8>,
}

/// The root slots of a file, and its live root. 42 where it has fewer than 8,192 bytes or no open
/// slot; 43 where two are open with equal versions, or the live one holds no root body; 50 where
/// the device failed, 1 when out of memory.
fn load_roots<D: Disk>(alloc: Global, disk: &mut D) -> Result<LoadedRoots, OpenError>
    ensures size { D.tells disk.old
        → IfOk result (λ it. it.file_size ≡ length (D.content disk.old)) }
    ensures found { D.tells disk.old → IfOk result
        (λ it. IsLive (D.content disk.old) it.roots.slot it.roots.stale_open it.root) }
    ensures below { IfOk result (λ it. it.roots.slot < 2) }
    ensures valid { IfOk result (λ it. IsRoot it.root) }
    ensures fault { D.tells disk.old
        → IfErr result (λ e. NamesLoadFault e (stored (D.content disk.old))) }
    ensures looks { IsLookedAt D.DiskFacts (failed_in result) 0 disk.old disk.new }
{
    match Roots::load(alloc, disk) {
        Ok(found) => Ok(found),
        Err(error) => Err(OpenError::from(error)),
    }
}

/// The two roots of a store that was opened: the live one, and one whose place the next commit
/// takes.
fn root_pair(
    alloc: Global,
    head: RootBody,
    data_pages: Written<u32>,
) -> Result<(Root, Root), AllocError>
    requires { IsInMemory head data_pages.items }
    ensures pages { IfOk result (λ it. it.0.pages ≡ head.tables ++ data_pages.items) }
    ensures says { IfOk result (λ it. root_of it.0.body ≡ head) }
    ensures written { IfOk result (λ it. it.0.body ≡ body_bytes head) }
    ensures other { IfOk result (λ it. stream_length_of it.1.body ≡ 0) }
{
    let replica = head.replica();
    let current = Root::new(alloc, head, data_pages)?;
    Ok((current, Root::empty(alloc, replica)?))
}

/// The same, with the data pages of an index.
fn roots_on(alloc: Global, head: RootBody, pages: &Pages) -> Result<(Root, Root), AllocError>
    requires { IsInMemory head pages.now.data_pages }
    ensures pages { IfOk result (λ it. it.0.pages ≡ head.tables ++ pages.now.data_pages) }
    ensures says { IfOk result (λ it. root_of it.0.body ≡ head) }
    ensures written { IfOk result (λ it. it.0.body ≡ body_bytes head) }
    ensures other { IfOk result (λ it. stream_length_of it.1.body ≡ 0) }
{
    let (_, data_pages) = pages.live();
    root_pair(alloc, head, Written::new().and(data_pages))
}

/// The records of operations in the newest format, where theirs has no runs; else nothing. An error
/// is out of memory (1).
fn spelled_anew(alloc: Global, format: Format, ops: &RunList) -> Result<Vec<u8>, AllocError>
    ensures spells { IfOk result (λ anew. has_runs format ≡ false
        → SpellsList newest ops.now anew.items) }
    ensures short { IfOk result (λ anew. has_runs format ≡ false
        → length anew.items ≤ stream_length ops.now) }
{
    match format {
        Format::First => packed(alloc, &ops.as_slice()),
        Format::Second | Format::Third => Ok(Vec::new(alloc)),
    }
}

/// What a file stands for. It refuses as [`Store::load`](crate::Store::load) does.
pub(crate) fn read_image<D: Disk>(alloc: Global, disk: &mut D) -> Result<Image, OpenError>
    ensures read { IfOk result (λ it. IsImageOf D.DiskFacts disk.old it) }
    ensures fault { D.tells disk.old → IfErr result (λ e. IsReadFault e (D.content disk.old)) }
    ensures looks { IsLookedAt D.DiskFacts (failed_in result) 0 disk.old disk.new }
{
    let LoadedRoots {
        roots,
        root,
        file_size,
    } = load_roots(alloc, disk)?;
    let Stream { pages, tail, ops } = read_stream(alloc, disk, file_size, &root)?;
    let anew = spelled_anew(alloc, root.format(), &ops)?;
    let (current, next) = roots_on(alloc, root, &pages)?;
    Ok(Image {
        roots,
        current,
        next,
        pages,
        stream: tail,
        ops,
        anew,
    })
}

/// Settles the disk, and reads what its file stands for. It refuses as
/// [`Store::load`](crate::Store::load) does.
pub(crate) fn sync_and_read<D: Disk>(alloc: Global, disk: &mut D) -> Result<Image, OpenError>
    ensures read { IfOk result (λ it. IsImageOf D.DiskFacts disk.old it) }
    ensures settled { D.tells disk.old → IfOk result
        (λ it. (c : List ℕ) → D.survives disk.new c → c ≡ D.content disk.old) }
    ensures fault { D.tells disk.old → IfErr result (λ e. IsFirstFault e (D.content disk.old)) }
    ensures looks { IfOk result (λ it. IsLookedAt D.DiskFacts 0 1 disk.old disk.new) }
    ensures refused { IfErr result
        (λ e. HandsBack D.DiskFacts (failures_of e) (is_of_sync e) disk.old disk.new) }
{
    sync_file(disk)?;
    read_image(alloc, disk)
}
