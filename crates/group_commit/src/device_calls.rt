//! Two device calls of a commit: the write of a page, and a sync.
ghost use Rattle.std.specs.Prelude.{◌≡◌, ◌*◌, ◌≤◌, length, IfErr};
ghost use Rattle.page_file.specs.DiskCalls.{IsWrite};
ghost use Rattle.group_commit.specs.Paging.{CanTake, TakesPage};
ghost use Rattle.group_commit.specs.Syncing.{IsSync};
ghost use Rattle.group_commit.specs.declared.error.StoreError.TheVariants.{WriteFailed, SyncFailed};

use crate::error::StoreError;
use disk_trait::Disk;
use fixed_numbers::sizes::PAGE_SIZE;
use page_file::Pages;

/// The bytes of a page, as an array.
fn whole_page(bytes: &[u8]) -> &[u8; PAGE_SIZE]
    requires size { length bytes.now ≡ PAGE_SIZE }
    ensures { result.now ≡ bytes.now }
{
    let (page, _) = bytes.split_first_chunk::<PAGE_SIZE>().unwrap();
    page
}

/// Writes a free page that begins in the file or at its end, and takes it. It is refused only where
/// the device failed (51).
pub(crate) fn put_page<D: Disk>(
    pages: &mut Pages,
    disk: &mut D,
    number: u32,
    bytes: &[u8],
) -> Result<(), StoreError>
    requires can_take { CanTake number pages.old }
    requires size { length bytes.now ≡ PAGE_SIZE }
    requires inside { D.tells disk.old → PAGE_SIZE * number ≤ length (D.content disk.old) }
    ensures writes { IsWrite D.DiskFacts result (PAGE_SIZE * number) bytes.now disk.old disk.new }
    ensures takes { TakesPage result number pages.old pages.new }
    ensures refused { IfErr result (λ e. e ≡ WriteFailed) }
{
    match pages.put_free(disk, number, whole_page(bytes)) {
        Ok(()) => Ok(()),
        Err(_) => Err(StoreError::WriteFailed),
    }
}

/// Settles all that was written. It is refused only where the device failed (52).
pub(crate) fn sync<D: Disk>(disk: &mut D) -> Result<(), StoreError>
    ensures syncs { IsSync D.DiskFacts result disk.old disk.new }
    ensures refused { IfErr result (λ e. e ≡ SyncFailed) }
{
    match disk.sync() {
        Ok(()) => Ok(()),
        Err(_) => Err(StoreError::SyncFailed),
    }
}
