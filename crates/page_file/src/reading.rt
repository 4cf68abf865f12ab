//! Reading pages that lie whole in the file.
ghost use Rattle.std.specs.Prelude.{◌≡◌, ◌⊎◌, ◌+◌, ◌*◌, ◌≤◌, ◌++◌, true, length};
ghost use Rattle.std.specs.Prelude.{IfOk, IfErr, OnOk};
ghost use Rattle.page_file.specs.DiskCalls.{IsLookedAt};
ghost use Rattle.page_file.specs.Pages.{page, pages, are_whole, joined};
ghost use Rattle.page_file.specs.Putting.{failed_in};
ghost use Rattle.page_file.specs.declared.error.PageError.TheVariants.{Memory, ReadFailed};

use crate::error::PageError;
use disk_trait::{Disk, read_inside};
use fixed_numbers::sizes::PAGE_SIZE;
use std::alloc::Global;

/// Appends the bytes of a page that lies whole in the file. Refused with 1 when out of memory, and
/// with 50 where the device failed.
fn append_page<D: Disk>(disk: &mut D, number: u32, out: &mut Vec<u8>) -> Result<(), PageError>
    requires inside { D.tells disk.old
        → PAGE_SIZE * number + PAGE_SIZE ≤ length (D.content disk.old) }
    ensures read { D.tells disk.old
        → OnOk result (out.new.items ≡ out.old.items ++ page number (D.content disk.old)) }
    ensures size { OnOk result (length out.new.items ≡ length out.old.items + PAGE_SIZE) }
    ensures looks { IsLookedAt D.DiskFacts (failed_in result) 0 disk.old disk.new }
    ensures refused { IfErr result (λ e. (e ≡ Memory) ⊎ (e ≡ ReadFailed)) }
{
    let mut bytes = [0; PAGE_SIZE];
    if let Err(_) = read_inside(disk, PAGE_SIZE as u64 * u64::from(number), &mut bytes) {
        return Err(PageError::ReadFailed);
    }
    out.extend_from_slice(&bytes)?;
    Ok(())
}

/// The bytes of pages that lie whole in the file, one behind the other. One device call a page, and
/// their bytes in memory, with 4,096 more. Of a disk that tells it is refused only with 1 when out
/// of memory, and with 50 where the device failed.
pub fn read_pages<D: Disk>(
    alloc: Global,
    disk: &mut D,
    numbers: &[u32],
) -> Result<Vec<u8>, PageError>
    requires whole { D.tells disk.old → are_whole (pages numbers.now (D.content disk.old)) ≡ true }
    ensures read { D.tells disk.old
        → IfOk result (λ bytes. bytes.items ≡ joined (pages numbers.now (D.content disk.old))) }
    ensures size { IfOk result (λ bytes. length bytes.items ≡ PAGE_SIZE * length numbers.now) }
    ensures looks { IsLookedAt D.DiskFacts (failed_in result) 0 disk.old disk.new }
    ensures refused { IfErr result (λ e. (e ≡ Memory) ⊎ (e ≡ ReadFailed)) }
{
    let mut bytes = Vec::new(alloc);
    for number in numbers {
        append_page(disk, *number, &mut bytes)?;
    }
    Ok(bytes)
}
