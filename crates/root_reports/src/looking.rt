//! Looking at the root slots of a file.
ghost use Rattle.std.specs.Prelude.{◌≡◌, ◌<◌, ◌≤◌, length, IfOk, IfErr, OnOk};
ghost use Rattle.fixed_numbers.specs.declared.sizes.TheConstants.{BODY_LENGTH, SLOTS_SIZE};
ghost use Rattle.page_file.specs.DiskCalls.{IsLookedAt};
ghost use Rattle.root_slots.specs.Faults.{NamesRootFault, failed_in};
ghost use Rattle.root_slots.specs.Live.{live_root};
ghost use Rattle.root_slots.specs.Slots.{body};
ghost use Rattle.root_slots.specs.declared.error.RootsError.TheVariants.{ReadFailed};
ghost use Rattle.root_reports.specs.Reports.{report_of};

use crate::slot_report::SlotReport;
use crate::stale::stale_of;
use disk_trait::{Disk, read_inside};
use fixed_numbers::sizes::{BODY_LENGTH, PAGE_SIZE};
use root_slots::{LoadedRoots, Roots, RootsError};
use std::alloc::Global;

/// What the root slots of a file say. It writes nothing, and looks at no other page.
///
/// Refuses as [`Roots::load`](root_slots::Roots::load) does: 50 if the device failed, 42 and 43 if
/// no slot is live or the live one holds no root, and 1 where a growth of memory was refused.
///
/// One `size`, and two reads of 8,192 and 4,088 bytes.
pub fn look<D: Disk>(alloc: Global, disk: &mut D) -> Result<SlotReport, RootsError>
    ensures report { D.tells disk.old
        → IfOk result (λ it. it ≡ report_of (D.content disk.old)) }
    ensures fault { D.tells disk.old
        → IfErr result (λ e. NamesRootFault e (live_root (D.content disk.old))) }
    ensures looks { IsLookedAt D.DiskFacts (failed_in result) 0 disk.old disk.new }
{
    let LoadedRoots { roots, root, .. } = Roots::load(alloc, disk)?;
    let page = roots.slot();
    let mut other = [0; BODY_LENGTH];
    read_body(disk, 1 - page, &mut other)?;
    let version = root.version();
    Ok(SlotReport {
        page,
        format: root.format(),
        version,
        replica: root.replica(),
        stale: stale_of(alloc, version, &other)?,
    })
}

/// Reads the body of a slot. It is refused only where the device failed (50).
fn read_body<D: Disk>(disk: &mut D, page: u64, bytes: &mut [u8]) -> Result<(), RootsError>
    requires page { page < 2 }
    requires long { length bytes.old ≡ BODY_LENGTH }
    requires whole { D.tells disk.old → SLOTS_SIZE ≤ length (D.content disk.old) }
    ensures read { D.tells disk.old
        → OnOk result (bytes.new ≡ body page (D.content disk.old)) }
    ensures looks { IsLookedAt D.DiskFacts (failed_in result) 0 disk.old disk.new }
    ensures refused { IfErr result (λ e. e ≡ ReadFailed) }
{
    match read_inside(disk, PAGE_SIZE as u64 * page + 8, bytes) {
        Ok(()) => Ok(()),
        Err(_) => Err(RootsError::ReadFailed),
    }
}
