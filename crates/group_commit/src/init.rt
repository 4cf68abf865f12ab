//! The making of a new file.
ghost use Rattle.std.specs.Prelude.{◌≡◌, ◌≤◌, ◌++◌, [], ◌∷◌, ◌↔◌, ℕ, List, length};
ghost use Rattle.std.specs.Prelude.{IfOk, IfErr, OnOk, OnErr};
ghost use Rattle.fixed_numbers.specs.declared.sizes.TheConstants.{BODY_LENGTH};
ghost use Rattle.page_file.specs.DiskCalls.{IsWrite};
ghost use Rattle.disk_trait.specs.File.{overwritten};
ghost use Rattle.root_slots.specs.Body.{root_of};
ghost use Rattle.group_commit.specs.NewFile.{slot_page, new_file, first_root, Raises, RefusesInit, IsUntouched};
ghost use Rattle.group_commit.specs.NewFile.{IsMade, AreFirst, IsNew, PutsPartly, OpensPartly};
ghost use Rattle.group_commit.specs.Syncing.{IsSync};
ghost use Rattle.group_commit.specs.declared.init_fault.InitError.TheVariants.{WriteFailed};
ghost use Rattle.group_commit.specs.declared.init_fault.InitError.TheVariants.{SyncFailed};

use crate::init_fault::{InitError, InitFault};
use crate::phase::Phase;
use crate::root::Root;
use crate::store::Store;
use crate::stream_tail::StreamTail;
use disk_trait::{Disk, write_inside};
use fixed_numbers::sizes::PAGE_SIZE;
use op_ids::ReplicaId;
use page_file::Pages;
use root_slots::Roots;
use std::alloc::{AllocError, Global};

/// The gate of an open slot.
const OPEN: [u8; 1] = [1];

/// The page of a slot with a closed gate and this body. An error is out of memory (1).
fn closed_slot(alloc: Global, body: &[u8]) -> Result<Vec<u8>, AllocError>
    ensures { IfOk result (λ page. page.items ≡ slot_page 0 body.now) }
{
    let mut page = Vec::new(alloc);
    page.resize(8, 0)?;
    page.extend_from_slice(body)?;
    Ok(page)
}

/// Whether the file has no bytes: 48 where it has some, 50 where the device failed.
fn check_empty<D: Disk>(disk: &mut D) -> Result<(), InitError>
    ensures taken { D.tells disk.old → OnOk result (D.content disk.old ≡ []) }
    ensures empty { D.tells disk.old → OnOk result (D.content disk.new ≡ []) }
    ensures refused { D.tells disk.old → IfErr result
        (λ e. (replica : ℕ) → RefusesInit D.DiskFacts replica e disk.old disk.new) }
    ensures counts { D.tells disk.old → OnOk result (Raises D.DiskFacts 0 0 0 disk.old disk.new) }
    ensures keeps { D.tells disk.old → IsUntouched D.DiskFacts disk.old disk.new }
    ensures tells { D.tells disk.new ↔ D.tells disk.old }
{
    match disk.size() {
        Ok(0) => Ok(()),
        Ok(_) => Err(InitError::NotEmpty),
        Err(_) => Err(InitError::ReadFailed),
    }
}

/// Writes bytes at an offset in the file or at its end. It is refused only where the device failed
/// (51).
fn put<D: Disk>(disk: &mut D, at: u64, bytes: &[u8]) -> Result<(), InitError>
    requires inside { D.tells disk.old → at ≤ length (D.content disk.old) }
    ensures writes { IsWrite D.DiskFacts result at bytes.now disk.old disk.new }
    ensures refused { IfErr result (λ e. e ≡ WriteFailed) }
{
    match write_inside(disk, at, bytes) {
        Ok(()) => Ok(()),
        Err(_) => Err(InitError::WriteFailed),
    }
}

/// Settles all that was written. It is refused only where the device failed (52).
fn sync<D: Disk>(disk: &mut D) -> Result<(), InitError>
    ensures syncs { IsSync D.DiskFacts result disk.old disk.new }
    ensures refused { IfErr result (λ e. e ≡ SyncFailed) }
{
    match disk.sync() {
        Ok(()) => Ok(()),
        Err(_) => Err(InitError::SyncFailed),
    }
}

/// The two slots of a file without bytes. It is refused only where the device failed (51).
fn put_slots<D: Disk>(disk: &mut D, first: &[u8], second: &[u8]) -> Result<(), InitError>
    requires empty { D.tells disk.old → D.content disk.old ≡ [] }
    requires size { length first.now ≡ PAGE_SIZE }
    ensures made { D.tells disk.old
        → OnOk result (IsMade D.DiskFacts (first.now ++ second.now) 2 0 disk.old disk.new) }
    ensures partly { D.tells disk.old
        → OnErr result (PutsPartly D.DiskFacts first.now disk.old disk.new) }
    ensures refused { IfErr result (λ e. e ≡ WriteFailed) }
    ensures tells { D.tells disk.new ↔ D.tells disk.old }
{
    put(disk, 0, first)?;
    put(disk, PAGE_SIZE as u64, second)
}

/// Opens the first slot's gate between two syncs: by then the slots are on the disk.
fn open_first<D: Disk>(disk: &mut D) -> Result<(), InitError>
    ensures written { D.tells disk.old → OnOk result
        (D.content disk.new ≡ overwritten (D.content disk.old) 0 (1 ∷ [])) }
    ensures only { D.tells disk.old → OnOk result
        ((c : List ℕ) → D.survives disk.new c → c ≡ D.content disk.new) }
    ensures counts { D.tells disk.old → OnOk result (Raises D.DiskFacts 0 1 2 disk.old disk.new) }
    ensures partly { D.tells disk.old
        → IfErr result (λ e. OpensPartly D.DiskFacts e disk.old disk.new) }
    ensures tells { D.tells disk.new ↔ D.tells disk.old }
{
    sync(disk)?;
    put(disk, 0, &OPEN)?;
    sync(disk)
}

/// The file of a new store with this body. An error is out of memory (1) or the device's.
fn make_file<D: Disk>(alloc: Global, disk: &mut D, body: &[u8]) -> Result<(), InitError>
    requires empty { D.tells disk.old → D.content disk.old ≡ [] }
    requires size { length body.now ≡ BODY_LENGTH }
    ensures made { D.tells disk.old
        → OnOk result (IsMade D.DiskFacts (new_file body.now) 3 2 disk.old disk.new) }
    ensures only { D.tells disk.old → OnOk result
        ((c : List ℕ) → D.survives disk.new c → c ≡ D.content disk.new) }
    ensures refused { D.tells disk.old → IfErr result
        (λ e. (replica : ℕ) → root_of body.now ≡ first_root replica
        → RefusesInit D.DiskFacts replica e disk.old disk.new) }
    ensures tells { D.tells disk.new ↔ D.tells disk.old }
{
    let first = closed_slot(alloc, body)?;
    put_slots(disk, &first, &[0; PAGE_SIZE])?;
    open_first(disk)
}

/// The two roots of a new store: the live one, and one in the place of a commit's. An error is out
/// of memory (1).
fn empty_roots(alloc: Global, replica: ReplicaId) -> Result<(Root, Root, Pages), AllocError>
    ensures roots { IfOk result (λ roots. AreFirst replica roots.0 roots.1 roots.2) }
{
    let current = Root::empty(alloc, replica)?;
    let next = Root::empty(alloc, replica)?;
    let pages = Pages::new(alloc)?;
    Ok((current, next, pages))
}

/// Makes the file of a disk without bytes, and gives the roots of its store.
fn format<D: Disk>(
    alloc: Global,
    disk: &mut D,
    replica: ReplicaId,
) -> Result<(Root, Root, Pages), InitError>
    requires empty { D.tells disk.old → D.content disk.old ≡ [] }
    ensures roots { IfOk result (λ roots. AreFirst replica roots.0 roots.1 roots.2) }
    ensures made { D.tells disk.old → IfOk result
        (λ roots. IsMade D.DiskFacts (new_file roots.0.body) 3 2 disk.old disk.new) }
    ensures left { D.tells disk.old → IfOk result
        (λ roots. (c : List ℕ) → D.survives disk.new c → c ≡ new_file roots.0.body) }
    ensures refused { D.tells disk.old → IfErr result
        (λ e. RefusesInit D.DiskFacts replica e disk.old disk.new) }
    ensures tells { D.tells disk.new ↔ D.tells disk.old }
{
    let roots = empty_roots(alloc, replica)?;
    match make_file(alloc, disk, roots.0.body()) {
        Ok(()) => Ok(roots),
        Err(error) => Err(error),
    }
}

/// Tests the size, and makes the file.
fn begin_file<D: Disk>(
    alloc: Global,
    disk: &mut D,
    replica: ReplicaId,
) -> Result<(Root, Root, Pages), InitError>
    ensures roots { IfOk result (λ roots. AreFirst replica roots.0 roots.1 roots.2) }
    ensures taken { D.tells disk.old → OnOk result (D.content disk.old ≡ []) }
    ensures refused { D.tells disk.old → IfErr result
        (λ e. RefusesInit D.DiskFacts replica e disk.old disk.new) }
    ensures made { D.tells disk.old → IfOk result
        (λ roots. IsMade D.DiskFacts (new_file roots.0.body) 3 2 disk.old disk.new) }
    ensures left { D.tells disk.old → IfOk result
        (λ roots. (c : List ℕ) → D.survives disk.new c → c ≡ new_file roots.0.body) }
    ensures tells { D.tells disk.new ↔ D.tells disk.old }
{
    check_empty(disk)?;
    format(alloc, disk, replica)
}

impl<D: Disk> Store<D> {
    /// Makes the file of a new store on a disk without bytes: two root slots, of which the first is
    /// live and has no operations. Three writes and two syncs.
    ///
    /// Refuses with 48 where the file has bytes, then with 1 where a growth was refused, and with
    /// 50, 51 or 52 where the device failed. The disk comes back either way: after 48, 50 and 1 as
    /// it was, and at every moment until then. After 51 and 52 the file, which had no bytes, may
    /// hold anything in its two slots up to the first sync; the gate is written behind that, and
    /// then the slots are whole but for the gate.
    pub fn init(alloc: Global, disk: D, replica: ReplicaId) -> Result<Store<D>, InitFault<D>>
        // It is made of a file without bytes alone; one that has some is left as it was.
        ensures made { IfOk result (λ store. IsNew D.DiskFacts replica disk store) }
        ensures refused { D.tells disk → IfErr result
            (λ fault. RefusesInit D.DiskFacts replica fault.cause disk fault.disk) }
        ensures tells_refused { IfErr result (λ fault. D.tells fault.disk ↔ D.tells disk) }
    {
        let mut disk = disk;
        match begin_file(alloc, &mut disk, replica) {
            Ok((current, next, pages)) => Ok(Store {
                disk,
                phase: Phase::Idle,
                current,
                next,
                pages,
                kept: 0,
                new_data: 0,
                stream: StreamTail::new(alloc),
                next_stream: StreamTail::new(alloc),
                anew: Vec::new(alloc),
                roots: Roots::of_new_file(),
                failed: false,
                numbers: Vec::new(alloc),
                fresh: Vec::new(alloc),
            }),
            Err(cause) => Err(InitFault { cause, disk }),
        }
    }
}
